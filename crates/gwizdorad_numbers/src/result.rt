// The one number that an operation for C returns.
ghost use Rattle.std.specs.Prelude.{◌≡◌};
ghost use Rattle.gwizdorad_numbers.specs.Result.{result_of};

// A refusal's number above 32 bits of detail; 0 above 32 bits of answer.
pub fn result_of(number: usize, detail: usize) -> u64
    ensures { result ≡ result_of number detail }
{
    (number % 0x1_0000_0000) as u64 * 0x1_0000_0000 + (detail % 0x1_0000_0000) as u64
}
