// What is asked of a piece's answer before the operation ends with it (store-io's optable.rs: finish, refused_next). Each function is the
// definition of its name in step's Rules.
ghost use Rattle.std.specs.Prelude.{◌≡◌};
ghost use Rattle.step.specs.Rules.{above_piece, first_refused, goes_on};

use model::Split;
use platform::Answer;

// Whether a count is above the piece.
pub fn above_piece(piece: u64, answer: Answer) -> bool
    ensures { result ≡ above_piece piece answer }
{
    match answer {
        Answer::Count(n) => piece < n,
        _ => false,
    }
}

// Whether the first piece is refused.
pub fn first_refused(s: Split, answer: Answer) -> bool
    ensures { result ≡ first_refused s answer }
{
    match answer {
        Answer::Refused => s.done == 0,
        Answer::RefusedWith { .. } => s.done == 0,
        _ => false,
    }
}

// Whether the piece is whole with its buffer, and bytes are left (Table::finish).
#[tactic(auto, unfolding(step::specs::Rules::goes_on, step::specs::Rules::is_whole), using(crate::proofs::Finishing::left_behind))]
pub fn goes_on(piece: u64, s: Split, answer: Answer, back: bool) -> bool
    ensures { result ≡ goes_on piece s answer back }
{
    match answer {
        Answer::Count(n) => n == piece && back && piece < crate::left(s),
        _ => false,
    }
}
