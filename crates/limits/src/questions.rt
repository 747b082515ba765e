// Questions 17, 19 and 20: do limits exist, is the order small enough.
ghost use Rattle.std.specs.Prelude.{◌≡◌, Bool, pos};
ghost use Rattle.ledger.specs.declared.order.Order.{Order};
ghost use Rattle.ledger.specs.Roster.{Roster};
ghost use Rattle.ledger.specs.Derivatives.{one};
ghost use Rattle.limits.specs.Lines.{Lines};
ghost use Rattle.limits.specs.Questions.{first_no};
ghost use Rattle.limits.specs.Answers.{number_of, refusal_number};
ghost use Rattle.limits.specs.Numbers.{order_number, existence_questions, size_questions};
ghost use Rattle.limits.specs.Bounds.{LinesSet, InForce};

use crate::answer::{Answer, Refusal};
use crate::lines::LineBytes;
use ledger::order::Side;
use ledger::units::Contracts;

// 17: are a line in force and the group line set? By whether the own line, the default line and the group line are.
pub fn limits_exist(own: bool, default: bool, of_group: bool) -> Answer
    ensures { (r : Roster) (ls : Lines) (o : Order) →
        LinesSet r ls o own default of_group →
        number_of result ≡ first_no (existence_questions r ls o) }
{
    if of_group && (own || default) {
        Ok(())
    } else {
        Err(Refusal::NoLimitsConfigured)
    }
}

// 19 or 20. What is refused of a size, an instrument's and a group's position are three functions of a line for each side: their clauses
// name three tables of numbers.
fn size_refusal(side: Side) -> Refusal
    ensures { refusal_number result ≡ order_number side }
{
    match side {
        Side::Buy => Refusal::BuyTooLarge,
        Side::Sell => Refusal::SellTooLarge,
    }
}

// 19 and 20: is the total at most TCI, or TVI? `line` is the line in force.
pub fn order_size(line: &LineBytes, side: Side, total: Contracts) -> Answer
    ensures { (r : Roster) (ls : Lines) (o : Order) →
        InForce r ls o line.now →
        o.side ≡ side →
        pos o.total ≡ total.0 →
        number_of result ≡ first_no (size_questions one r ls o) }
{
    if total <= line.largest_order(side) {
        Ok(())
    } else {
        Err(size_refusal(side))
    }
}
