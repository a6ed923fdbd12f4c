//! The error check character (ITU-R M.493, error check character).
ghost use Rattle.std.specs.Prelude.{◌≡◌};
ghost use Rattle.symbol_reader.specs.Checks.{check_of};

/// The error check character of these symbols, their bitwise exclusive or (ITU-R M.493, error check character).
pub fn check(list: &[u8]) -> u8
    ensures { result ≡ check_of list.now }
{
    let mut check = 0;
    for symbol in list {
        check ^= *symbol;
    }
    check
}
