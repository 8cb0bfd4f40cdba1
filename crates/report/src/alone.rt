ghost use Rattle.report.specs.Alone.{ShowsAsIfAlone, ShowsNothingElse, SumsAsIfAlone};

/// After every schedule, the report's section of a VM that the configuration keeps apart from the others is, byte for
/// byte, the section of its own run. The function does nothing; its contract is the law.
pub fn a_vm_shows_as_if_alone()
    ensures { ShowsAsIfAlone }
{}

/// Two runs show the same of a VM, byte for byte, where they give it the same configuration, image and view, whatever else
/// the others do differently. The function does nothing; its contract is the law.
pub fn a_vm_shows_nothing_else()
    ensures { ShowsNothingElse }
{}

/// After every schedule, the summary's line of a VM that the configuration keeps apart from the others is, byte for byte, the
/// line of its own run. The function does nothing; its contract is the law.
pub fn a_vm_sums_as_if_alone()
    ensures { SumsAsIfAlone }
{}
