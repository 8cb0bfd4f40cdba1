ghost use Rattle.std.specs.Prelude.{◌≡◌, ℕ};
ghost use Rattle.ports.specs.declared.port.PortKind.{PortKind};
ghost use Rattle.ports.specs.PortState.{kind_of, new_port, PortState};
ghost use Rattle.ports.specs.Registers.{after_input, after_read, after_write};

/// The law that a port's kind never changes.
pub fn kind_stays()
    ensures new { (kind : PortKind) → kind_of (new_port kind) ≡ kind }
    ensures read { (state : PortState) (offset width : ℕ) → kind_of (after_read state offset width) ≡ kind_of state }
    ensures write { (state : PortState) (offset width value : ℕ) →
        kind_of (after_write state offset width value) ≡ kind_of state }
    ensures input { (state : PortState) (byte : ℕ) → kind_of (after_input state byte) ≡ kind_of state }
{}
