// The stage of a ballot as a number.
ghost use Rattle.std.specs.Prelude.{◌≡◌, ℕ, suc, ◌<◌, ◌≤◌, nat_lt, ◌==◌};
ghost use Rattle.ballots.specs.States.{stage_of};

use crate::ballot::Stage;
use crate::rounds::LATER;

// The round, and 16 where the ballot has gone on from all.
impl From<Stage> for u8 {
    ghost from_gives = { λ stage number. number ≡ stage_of stage };

    fn from(stage: Stage) -> u8 {
        match stage {
            Stage::InRound(round) => round,
            Stage::Finished => 16,
        }
    }
}

impl Stage {
    // Whether a ballot is in this round.
    pub fn is_round(self, round: u8) -> bool
        ensures { result ≡ (stage_of self == round) }
    {
        u8::from(self) == round
    }

    // Whether the ballot has entered a later round.
    pub fn has_entered(self, later: u8) -> bool
        ensures { result ≡ nat_lt later (stage_of self) }
    {
        later < u8::from(self)
    }

    // How many later rounds the ballot has gone on from.
    pub fn passed(self) -> u8
        ensures low { result ≤ 15 }
        ensures below { (r : ℕ) → r < result → suc r < stage_of self }
    {
        let stage = u8::from(self);
        if stage > LATER {
            LATER
        } else {
            stage.saturating_sub(1)
        }
    }
}
