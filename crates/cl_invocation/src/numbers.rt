//! Numbers in texts.
ghost use Rattle.std.specs.Prelude.{◌≡◌};
ghost use Rattle.std.specs.Char.{is_ascii_digit};
ghost use Rattle.std.specs.List.{list_all};
ghost use Rattle.cl_invocation.specs.Words.{budget_in, items_in, number_in};

/// The longest text of a number.
const MOST_DIGITS: usize = 9;

/// The budget that the text writes, from 1 to 100,000,000 forms.
pub fn budget_in(text: &str) -> Option<u32>
    ensures { result ≡ budget_in text.now }
{
    number_in(1, 100_000_000, text)
}

/// The number of items that the text writes, from 1 to 1,000.
pub fn items_in(text: &str) -> Option<u32>
    ensures { result ≡ items_in text.now }
{
    number_in(1, 1_000, text)
}

// The number that 1 to 9 decimal digits write, if it is within the bounds.
fn number_in(least: u32, most: u32, text: &str) -> Option<u32>
    ensures { result ≡ number_in least most text.now }
{
    if text.len() > MOST_DIGITS || !is_all_digits(text) {
        return None;
    }
    let Ok(number) = text.parse::<u32>() else {
        return None;
    };
    if number >= least && number <= most {
        Some(number)
    } else {
        None
    }
}

// Whether each byte of the text is a decimal digit.
fn is_all_digits(text: &str) -> bool
    ensures { result ≡ list_all is_ascii_digit text.now }
{
    text.bytes().all(|byte| byte.is_ascii_digit())
}
