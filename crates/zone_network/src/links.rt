ghost use Rattle.std.specs.Prelude.{◌≡◌, ◌==◌, ◌||◌};
ghost use Rattle.ra_base.specs.declared.limits.TheConstants.{MOST_INTERFACES};

use ra_base::OutOfMemory;
use std::alloc::Global;
use std::marker::Model;

/// A link between two different zones. Its flow is forward where it goes from `from` to `to`.
#[derive(Clone, Copy, Debug, PartialEq, Eq)]
pub struct Link {
    /// The zone that forward flow leaves, from 0.
    pub from: u8,
    /// The zone that forward flow enters, from 0.
    pub to: u8,
}

/// Numbers of links, as those that touch a zone.
#[derive(Drop)]
pub struct LinkList {
    links: Vec<u32>,
}

impl Model for LinkList {
    ghost use Rattle.std.specs.Prelude.{List, ℕ};

    ghost Value = { List ℕ };

    ghost view = { λ list. list.links.items };
}

impl LinkList {
    ghost use Rattle.std.specs.Prelude.{◌≡◌, ◌≤◌, IfOk, length};
    ghost use Rattle.zone_network.specs.Network.{touching};

    /// The links that start or end in a zone, ascending.
    pub fn of(alloc: Global, ends: &[Link], zone: u8) -> Result<LinkList, OutOfMemory>
        requires { length ends.now ≤ MOST_INTERFACES }
        ensures { IfOk result (λ list. list ≡ touching ends.now zone) }
    {
        let mut links = Vec::new(alloc);
        for at in 0..ends.len() {
            if touches(ends[at], zone) {
                links.push(at as u32)?;
            }
        }
        Ok(LinkList { links })
    }

    /// The numbers, ascending.
    #[inline]
    pub fn links(&self) -> &[u32]
        ensures { result.now ≡ self.now }
    {
        &self.links
    }
}

/// Whether a link starts or ends in a zone.
fn touches(link: Link, zone: u8) -> bool
    ensures { result ≡ ((link.from == zone) || (link.to == zone)) }
{
    link.from == zone || link.to == zone
}
