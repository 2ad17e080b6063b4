ghost use Rattle.std.specs.Prelude.{◌≡◌, ◌≤◌, length};
ghost use Rattle.cbi_base.specs.Format.{conversions_of, is_conversion};

use crate::text::cut;

fn is_conversion(letter: u8) -> bool
    ensures { result ≡ is_conversion letter }
{
    matches!(letter, b'd' | b'u' | b'c' | b's')
}

/// The number of `%d`, `%u`, `%c` and `%s` of a format; None exactly where a `%` begins none of these and no `%%`.
pub fn count_conversions(format: &[u8]) -> Option<u32>
    requires { length format.now ≤ 2097152 }
    ensures { result ≡ conversions_of format.now }
{
    let mut count = 0;
    let mut rest = format;
    while let Some((_, after)) = cut(rest, b'%') {
        let (letter, next) = after.split_first()?;
        if is_conversion(*letter) {
            count += 1;
        } else if *letter != b'%' {
            return None;
        }
        rest = next;
    }
    Some(count)
}
