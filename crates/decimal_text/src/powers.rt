//! Powers of ten.
ghost use Rattle.std.specs.Prelude.{◌≡◌, ◌^◌, ◌<◌, ◌≤◌};

// Ten to the exponent.
pub fn power_of_ten(exponent: u8) -> u64
    requires { exponent ≤ 18 }
    ensures value { result ≡ 10 ^ exponent }
    ensures some { 0 < result }
{
    10u64.pow(u32::from(exponent))
}
