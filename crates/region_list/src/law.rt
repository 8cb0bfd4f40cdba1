ghost use Rattle.std.specs.Prelude.{◌≡◌, ◌≢◌, ℕ, IsTrue, List, Any};
ghost use Rattle.bao_types.specs.declared.access.Class.{Class};
ghost use Rattle.bao_types.specs.ByteRange.{is_within};
ghost use Rattle.region_list.specs.declared.run.Run.{Run};
ghost use Rattle.region_list.specs.Runs.{AreMaximalRuns};

/// The laws of maximal runs: the classes of all bytes have one list of them and no other, and each byte of a class
/// other than Nothing is in one of them.
pub fn laws_of_runs()
    ensures one_list { (class_of : ℕ → Class) (runs others : List Run) →
        AreMaximalRuns class_of runs → AreMaximalRuns class_of others → runs ≡ others }
    ensures complete { (class_of : ℕ → Class) (runs : List Run) (at : ℕ) →
        AreMaximalRuns class_of runs → class_of at ≢ Class.Nothing → Any (λ run. IsTrue (is_within run.range at)) runs }
{}
