//! What holds of every scenario.
ghost use Rattle.std.specs.Prelude.{◌≡◌};
ghost use Rattle.scenario_file.specs.Scenario.{IsScenario, Plan};
ghost use Rattle.scenario_file.specs.Lines.{lines, without_hostile};

/// The lines of the calls between honest domains are the same without the hostile domains.
#[tactic(auto, using(crate::proofs::KeptLaws::lines_stay))]
pub fn lines_stay_without_hostile()
    ensures { (s : Plan) → IsScenario s → lines (without_hostile s) ≡ lines s }
{}
