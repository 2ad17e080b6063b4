ghost use Rattle.std.specs.Prelude.{◌≡◌, ℕ, List};
ghost use Rattle.study.specs.Studied.{IsStudy};
ghost use Rattle.study.specs.declared.ranked.StudyResult.{StudyResult};
ghost use Rattle.study_runs.specs.declared.plan.StudyPlan.{StudyPlan};

use compiler::one_accepted_text;
use elimination::one_elimination;
use study_runs::one_made_run;

/// Studies of one text with one plan have one ranking.
pub fn studies_agree()
    ensures { (text : List ℕ) (plan : StudyPlan) (r s : StudyResult) → IsStudy text plan r → IsStudy text plan s → r.ranking.items ≡ s.ranking.items }
{
    one_accepted_text();
    one_elimination();
    one_made_run();
}
