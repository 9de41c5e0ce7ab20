// String to form.
#![tactic(auto)]

ghost use Rattle.answer.specs.Refusal.{said};
ghost use Rattle.string_to_form.specs.Promise.{StringToForm};

use answer::{Figures, Refusal, STRING_LIMIT};
use extend_form::Spelled;
use tail::Products;

// The form is normalised first, so a short buffer is known before the first write.
pub fn string_to_form(text: &[u8], buffer: &mut [u8]) -> Result<Figures, Refusal>
    ensures { StringToForm text.now buffer.old (said result) buffer.new }
{
    // The form before the table: the other way round the compiler clears its bytes twice.
    let mut form = Spelled::<STRING_LIMIT>::new();
    let products = Products::new();
    normalise::normalise(&products, text, &mut form)?;
    write_form::write_form(&form, buffer)
}
