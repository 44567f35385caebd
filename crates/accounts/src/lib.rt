// The accounts of a round. They know no time.
#![tactic(auto)]

ghost use Rattle.std.specs.Prelude.{◌≡◌, ◌<◌};
ghost use Rattle.rules.specs.Account.{called as Account·called, noted as Account·noted};

use rules::round::Round;

// A flow is called to its turn while so many wait: a round opens first where the one before is used up.
#[tactic(auto, unfolding(rules::specs::Account::called, rules::specs::Account::opened, rules::specs::Account::used))]
pub fn called(round: Round, waiting: u64) -> Round
    requires { (0 < waiting) × (round.number < 1_000_000) }
    ensures { result ≡ Account·called round waiting }
{
    if round.left == 0 {
        return Round {
            number: round.number + 1,
            left: waiting - 1,
            credit: round.most,
            most: 0,
        };
    }
    Round {
        left: round.left - 1,
        ..round
    }
}

// A turn leaves an excess.
#[tactic(auto, unfolding(rules::specs::Account::noted))]
pub fn noted(round: Round, excess: u64) -> Round
    ensures { result ≡ Account·noted round excess }
{
    Round {
        most: round.most.max(excess),
        ..round
    }
}
