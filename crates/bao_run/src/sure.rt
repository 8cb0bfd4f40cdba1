ghost use Rattle.std.specs.Prelude.{◌≡◌};
ghost use Rattle.outside.specs.FileList.{FileListData};
ghost use Rattle.report.specs.declared.status.Status.{Status};
ghost use Rattle.bao_run.specs.Call.{Call};
ghost use Rattle.bao_run.specs.Answers.{Answers};
ghost use Rattle.bao_run.specs.SureAnswers.{IsSurelyComplete};

use outside::{Shelf, SureShelf};

/// Over a shelf that never fails, the top call needs no premise on the shelf's faults: where the told contents are
/// accepted and the sink doesn't fail, it succeeds, want of memory aside.
#[tactic(auto, using(crate::proofs::SureLemmas::surely))]
pub fn complete_over_a_sure_shelf()
    ensures { (before after : FileListData) (call : Call) (answer : Status)
        → call.shelf.before.faults ≡ ⟦<SureShelf as Shelf>⟧.faults before → call.shelf.after.faults ≡ ⟦<SureShelf as Shelf>⟧.faults after
        → Answers call answer → IsSurelyComplete call answer }
{}
