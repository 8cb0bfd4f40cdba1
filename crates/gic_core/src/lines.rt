ghost use Rattle.std.specs.Prelude.{◌≡◌, ◌<◌, is_some};
ghost use Rattle.std.specs.List.{list_any};
ghost use Rattle.gic_core.specs.Least.{IsLeast};
ghost use Rattle.gic_core.specs.Lines.{after_ack, is_any_raised, least_raised, quiet_lines, raised_intids, with_port, with_ppi};

use crate::PortLine;
use crate::port_line::{acknowledge, raise};
use arrayvec::ArrayVec;
use bao_types::PortSpot;
use std::marker::Model;

/// The interrupt of a core's virtual timer.
const TIMER_PPI: u16 = 27;

/// The raised interrupt lines: PPI 27 by core, and an SPI by port.
#[derive(Debug, PartialEq, Eq, Drop)]
pub struct Lines {
    ppis: [bool; 8],
    ports: ArrayVec<PortLine, 16>,
    /// Whether any of them is raised, for whichever core. It is asked before every step, and is false as a rule.
    any: bool,
}

impl Model for Lines {
    ghost use Rattle.std.specs.Prelude.{◌≡◌};
    ghost use Rattle.gic_core.specs.Lines.{LinesData, is_any_raised};

    ghost Value = { LinesData };

    ghost view = { λ l. record { ppis = l.ppis; ports = l.ports.items } };

    ghost invariant = { λ l. l.any ≡ is_any_raised l.ppis l.ports.items };

    ghost inverse = { λ d. record { ppis = d.ppis; ports = record { items = d.ports }; any = is_any_raised d.ppis d.ports } };
}

impl Lines {
    /// The lines of a board with these ports. None is raised.
    pub fn new(spots: &ArrayVec<PortSpot, 16>) -> Self
        ensures { result ≡ quiet_lines spots.now.items }
    {
        let mut ports = ArrayVec::new();
        for spot in spots.as_slice() {
            ports.push(PortLine {
                port: spot.id,
                spi: spot.spi,
                cores: spot.cores,
                raised: false,
            });
        }
        Lines {
            ppis: [false; 8],
            ports,
            any: false,
        }
    }

    /// Raises PPI 27 for a core.
    pub fn raise_ppi(&mut self, core: u8)
        requires { core < 8 }
        ensures { self.new ≡ with_ppi self.old core }
    {
        self.ppis[usize::from(core)] = true;
        self.any = is_any_raised(&self.ppis, &self.ports);
    }

    /// Raises the line of a port, for the cores of the VM that owns it. A port that the board doesn't have changes nothing.
    pub fn raise_port(&mut self, port: u8)
        ensures { self.new ≡ with_port self.old port }
    {
        raise(self.ports.as_mut_slice(), port);
        self.any = is_any_raised(&self.ppis, &self.ports);
    }

    /// Whether any line is raised for the core.
    #[tactic(auto, using(crate::proofs::LinesLemmas::none_is_raised))]
    #[inline(always)]
    pub fn raised(&self, core: u8) -> bool
        requires { core < 8 }
        ensures { result ≡ is_some (least_raised self.now core) }
    {
        if !self.any {
            return false;
        }
        self.least_raised(core).is_some()
    }

    /// Takes the least interrupt that is raised for the core and clears its line. None exactly where no line is
    /// raised for it; then nothing changes.
    pub fn ack(&mut self, core: u8) -> Option<u16>
        requires { core < 8 }
        ensures value { result ≡ least_raised self.old core }
        ensures least { IsLeast result (raised_intids self.old core) }
        ensures cleared { self.new ≡ after_ack self.old core result }
    {
        let intid = self.least_raised(core)?;
        if intid == TIMER_PPI {
            self.ppis[usize::from(core)] = false;
        }
        acknowledge(self.ports.as_mut_slice(), core, intid);
        self.any = is_any_raised(&self.ppis, &self.ports);
        Some(intid)
    }

    /// The least interrupt that is raised for the core.
    #[inline(never)]
    fn least_raised(&self, core: u8) -> Option<u16>
        requires { core < 8 }
        ensures { result ≡ least_raised self.now core }
    {
        let mut least = if self.ppis[usize::from(core)] {
            Some(TIMER_PPI)
        } else {
            None
        };
        for line in self.ports.as_slice() {
            least = line.lesser(core, least);
        }
        least
    }
}

/// Whether any line is raised, for whichever core.
fn is_any_raised(ppis: &[bool; 8], ports: &[PortLine]) -> bool
    ensures { result ≡ is_any_raised ppis.now ports.now }
{
    is_ppi_raised(ppis) || is_port_raised(ports)
}

fn is_ppi_raised(ppis: &[bool; 8]) -> bool
    ensures { result ≡ list_any (λ raised. raised) ppis.now }
{
    ppis.iter().any(|raised| *raised)
}

fn is_port_raised(ports: &[PortLine]) -> bool
    ensures { result ≡ list_any (λ line. line.raised) ports.now }
{
    ports.iter().any(|line| line.raised)
}
