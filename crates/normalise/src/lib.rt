// A string normalised: its refusal, 2 then 1, or the codes and the tail that spell its form.
#![tactic(auto)]

ghost use Rattle.std.specs.Prelude.{◌≤◌, ◌≡◌, length};
ghost use Rattle.answer.specs.Limits.{string_limit};
ghost use Rattle.normalise.specs.Normalise.{Normalises};

use answer::{Refusal, STRING_LIMIT};
use extend_form::Spelled;
use tail::Products;

// One pass over the letters, up to a byte that is none. What was spelled before is cleared.
#[tactic(auto, using(alphabet::specs::String::too_long))]
pub fn normalise<const N: usize>(
    products: &Products,
    text: &[u8],
    form: &mut Spelled<N>,
) -> Result<(), Refusal>
    requires { string_limit ≤ N }
    ensures { Normalises text.now form.new result }
{
    if STRING_LIMIT < text.len() {
        return Err(Refusal::TooLong {
            limit: STRING_LIMIT,
        });
    }
    form.clear();
    form.by_text(products, text)
        .map_err(|place| Refusal::BadLetter { place })
}
