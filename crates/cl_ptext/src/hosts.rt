//! Host types by their names.
ghost use Rattle.std.specs.Prelude.{◌≡◌, ◌≤◌, length, map, option_map};
ghost use Rattle.cl_host.specs.Names.{first_named};
ghost use Rattle.cl_value.specs.Value.{data_of};
ghost use Rattle.cl_ptext.specs.Hosts.{name_of_number};
ghost use Rattle.cl_ptext.specs.Readings.{found, host_number, or_else};
ghost use Rattle.cl_ptext.specs.Words.{number_in};

use crate::words::number_in;
use cl_value::{Text, Value};

/// The longest text in bytes that the reader of a host type is asked for.
const LONGEST: usize = 64;

/// The host types that an application may use.
pub trait Hosts {
    ghost use Rattle.std.specs.Prelude.{ℕ, ℤ, List, Option};
    ghost use Rattle.cl_ptext.specs.Hosts.{NameEntries};

    // the names of a host type with their numbers, by the name of the type; none where there is no such type
    ghost entries: { Self → List ℕ → NameEntries };

    // the least and the greatest number of a host type, by the name of the type; none where there is no such type
    ghost bounds: { Self → List ℕ → Option (ℤ × ℤ) };

    /// The number of the first entry of a text among the names of a host type, by its reader. It asks for at most 64 bytes.
    fn number(&self, host: &[u8], text: &[u8]) -> Option<i64>
        requires { length text.now ≤ 64 }
        ensures { result ≡ first_named text.now (entries self.now host.now) };

    /// The first name of a number of a host type.
    fn name_of(&self, host: &[u8], number: i64) -> Option<&Text>
        ensures { option_map (λ t. t.now) result ≡ name_of_number number (entries self.now host.now) };

    /// The least and the greatest number of a host type; `None` where there is no such host type.
    fn bounds(&self, host: &[u8]) -> Option<(i64, i64)>
        ensures { result ≡ bounds self.now host.now };
}

// The number of a name, by the reader of its host type.
fn number_named<H: Hosts>(hosts: &H, host: &[u8], text: &[u8]) -> Option<Value>
    ensures { option_map data_of result ≡ host_number (H.entries hosts.now host.now) text.now }
{
    if text.len() > LONGEST {
        return None;
    }
    match hosts.number(host, text) {
        Some(number) => Some(Value::Int(number)),
        None => None,
    }
}

/// The number of a name of a host type, else the number that is written.
pub(crate) fn host_value<H: Hosts>(hosts: &H, host: &[u8], text: &[u8]) -> Option<Value>
    ensures { found (option_map data_of result)
        ≡ or_else (host_number (H.entries hosts.now host.now) text.now) (found (number_in text.now)) }
{
    match number_named(hosts, host, text) {
        Some(number) => Some(number),
        None => number_in(text),
    }
}
