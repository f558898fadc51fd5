// The number that an operation on streams returns.
ghost use Rattle.std.specs.Prelude.{◌≡◌};
ghost use Rattle.gwizdorad.specs.Result.{answer_result};

use gwizdorad_numbers::result;
use stream::answers::Answer;

pub(crate) fn result_of_answer(answer: Answer) -> u64
    ensures { result ≡ answer_result answer }
{
    match answer {
        Ok(n) => result::result_of(0, n),
        Err(refusal) => result::result_of(refusal.number(), refusal.detail()),
    }
}
