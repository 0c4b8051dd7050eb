//! Host types that are handed in.
ghost use Rattle.std.specs.Prelude.{◌≡◌, map, option_map};
ghost use Rattle.cl_ptext.specs.HostTypes.{bounds_of, host_names, names_there};
ghost use Rattle.cl_ptext.specs.Hosts.{name_of_number};

use crate::hosts::Hosts;
use cl_host::HostType;
use cl_value::Text;

/// Host types in a row; of two of one name the first counts.
#[derive(Drop)]
pub struct HostTypes<'a> {
    pub types: &'a [HostType],
}

// The first host type of a name.
fn host_named<'h>(hosts: &'h [HostType], name: &[u8]) -> Option<&'h HostType>
    ensures names { names_there (option_map (λ h. h.now.names.items) result) ≡ host_names name.now (map (λ h. (h.name, h.names.items)) hosts.now) }
    ensures bounds { option_map (λ h. (h.now.low, h.now.high)) result ≡ bounds_of name.now (map (λ h. (h.name, h.low, h.high)) hosts.now) }
{
    for host in hosts {
        if name == host.name().as_slice() {
            return Some(host);
        }
    }
    None
}

// The first name of a number.
fn name_of_number(names: &[(Text, i64)], number: i64) -> Option<&Text>
    ensures { option_map (λ t. t.now) result ≡ name_of_number number names.now }
{
    for name in names {
        if number == name.1 {
            return Some(&name.0);
        }
    }
    None
}

impl Hosts for HostTypes<'_> {
    ghost use Rattle.std.specs.Prelude.{map};
    ghost use Rattle.cl_ptext.specs.HostTypes.{bounds_of, host_names};

    ghost entries = { λ h x. host_names x (map (λ t. (t.name, t.names.items)) h.types.now) };

    ghost bounds = { λ h x. bounds_of x (map (λ t. (t.name, t.low, t.high)) h.types.now) };

    fn number(&self, host: &[u8], text: &[u8]) -> Option<i64> {
        match host_named(self.types, host) {
            Some(host) => host.read(text),
            None => None,
        }
    }

    fn name_of(&self, host: &[u8], number: i64) -> Option<&Text> {
        match host_named(self.types, host) {
            Some(host) => name_of_number(host.names().as_slice(), number),
            None => None,
        }
    }

    fn bounds(&self, host: &[u8]) -> Option<(i64, i64)> {
        match host_named(self.types, host) {
            Some(host) => Some((host.low(), host.high())),
            None => None,
        }
    }
}
