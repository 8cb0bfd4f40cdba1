ghost use Rattle.std.specs.Prelude.{◌≡◌};
ghost use Rattle.outside.specs.Faults.{is_listed};

/// Whether the call of this number is one of those that are to fail.
pub fn is_listed(failing: &[u32], call: u64) -> bool
    ensures { result ≡ is_listed failing.now call }
{
    failing.iter().any(|&listed| u64::from(listed) == call)
}
