ghost use Rattle.std.specs.Prelude.{◌≡◌, ◌<◌, map};
ghost use Rattle.gic_core.specs.PortLine.{acknowledged_by, lesser, raised_by, reaches};

/// The interrupt line of a device port.
#[derive(Clone, Copy, Debug, Default, PartialEq, Eq)]
pub struct PortLine {
    /// The port's number.
    pub port: u8,
    /// The number of the port's interrupt.
    pub spi: u16,
    /// The cores of the VM that owns the port, one bit each.
    pub cores: u8,
    pub raised: bool,
}

impl PortLine {
    /// Whether the port's VM has this core.
    pub(crate) fn reaches(&self, core: u8) -> bool
        requires { core < 8 }
        ensures { result ≡ reaches self.now core }
    {
        (self.cores >> core) % 2 == 1
    }

    /// The lesser of `least` and this line's interrupt, where the line is raised for the core.
    pub(crate) fn lesser(&self, core: u8, least: Option<u16>) -> Option<u16>
        requires { core < 8 }
        ensures { result ≡ lesser self.now core least }
    {
        if !self.raised || !self.reaches(core) {
            return least;
        }
        match least {
            Some(intid) => Some(intid.min(self.spi)),
            None => Some(self.spi),
        }
    }
}

/// Raises the line of this port.
pub(crate) fn raise(ports: &mut [PortLine], port: u8)
    ensures { ports.new ≡ map (raised_by port) ports.old }
{
    for line in ports.iter_mut() {
        line.raised = line.raised || line.port == port;
    }
}

/// Clears the lines of this interrupt that reach the core.
pub(crate) fn acknowledge(ports: &mut [PortLine], core: u8, intid: u16)
    requires { core < 8 }
    ensures { ports.new ≡ map (acknowledged_by core intid) ports.old }
{
    for line in ports.iter_mut() {
        let taken = line.spi == intid && line.reaches(core);
        line.raised = line.raised && !taken;
    }
}
