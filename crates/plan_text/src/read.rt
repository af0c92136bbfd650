ghost use Rattle.plan.specs.KeepsLimits.{KeepsLimits};
ghost use Rattle.plan.specs.Of.{plan_contents};
ghost use Rattle.plan_text.specs.Texts.{ReadsText, IsTextOf};

use plan::draft::{Draft, Refused};
use plan::plan::Plan;
use plan::tables::Tables;
use text::line::first_line;

// Takes the lines of a text one by one, and seals. The public call says besides which texts are
// taken.
#[tactic(auto, using(crate::proofs::Reading::line_taken, crate::proofs::Reading::line_refused, crate::proofs::Reading::cut_lines, std::proofs::lemmas::Bool::Decides::nat_tests, std::proofs::lemmas::Grind::common_steps))]
fn take_text(text: &[u8], into: &mut Plan) -> Result<(), Refused>
    ensures { ReadsText text.now into.old result into.new }
{
    let mut tables = Tables::new();
    let mut draft = Draft::new(&mut tables);
    let mut rest = text;
    // no index: each turn takes a line off the text
    while !rest.is_empty() {
        let (line, more) = first_line(rest);
        match draft.add(&mut tables, line) {
            Ok(next) => draft = next,
            Err((back, refused)) => {
                back.discard();
                return Err(refused);
            }
        }
        rest = more;
    }
    match draft.seal(&tables, into) {
        Ok(()) => Ok(()),
        Err((back, refused)) => {
            back.discard();
            Err(refused)
        }
    }
}

/// Reads a whole text into the place of a plan, or refuses it (16 to 20) at a line and leaves the
/// place as it was.
#[tactic(auto, using(crate::proofs::Image::is_text_of, plan::proofs::KeepsLimits::keeps_limits))]
pub fn read(text: &[u8], into: &mut Plan) -> Result<(), Refused>
    ensures reads { ReadsText text.now into.old result into.new }
    ensures image { IsTextOf text.now result into.new }
    ensures limits { KeepsLimits (plan_contents into.new) }
{
    take_text(text, into)
}
