ghost use Rattle.std.specs.Prelude.{◌≡◌, ◌+◌, ◌-◌, ◌*◌, ◌≤◌, not};
ghost use Rattle.ra_base.specs.declared.limits.TheConstants.{MOST_LINK_MW};
ghost use Rattle.transfer_flow.specs.Flow.{carried};

/// How much more a signed flow can carry one way, up to a limit.
#[inline]
pub(crate) fn room_below(flow: i32, limit: u32, forward: bool) -> u32
    requires limit { limit ≤ MOST_LINK_MW }
    requires along { carried flow forward ≤ limit }
    requires against { carried flow (not forward) ≤ MOST_LINK_MW }
    ensures { result ≡ limit - carried flow forward + carried flow (not forward) }
{
    let along = if forward { flow } else { -flow };
    (limit as i32 - along) as u32
}

/// The flow that carries so much more one way.
#[inline]
pub(crate) fn carrying(flow: i32, by: u32, forward: bool) -> i32
    requires by { by ≤ 2 * MOST_LINK_MW }
    requires along { carried flow forward ≤ MOST_LINK_MW }
    requires against { carried flow (not forward) ≤ MOST_LINK_MW }
    ensures along { carried result forward ≡ carried flow forward + (by - carried flow (not forward)) }
    ensures against { carried result (not forward) ≡ carried flow (not forward) - by }
{
    if forward {
        flow + by as i32
    } else {
        flow - by as i32
    }
}
