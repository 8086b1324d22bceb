// What an offer says to all, as a message and as its block.
ghost use Rattle.std.specs.Prelude.{◌≡◌, ◌<◌};
ghost use Rattle.std.specs.Option.{option_map};
ghost use Rattle.mdc_types.specs.Roles.{eight, role_of};
ghost use Rattle.cluster_msgs.specs.Messages.{IsInRange};
ghost use Rattle.cluster_model.specs.Publishing.{body_of, message_of, block_of};
ghost use Rattle.world_state.specs.Kept.{core_of, offer_of};

use cluster_msgs::{Body, Msg, write_msg};
use disk_addition::device_uuid;
use dlm_modes::Block;
use mdc_types::{NodeId, Roles, Wish};
use world_state::{CoreState, Offer};

/// What the node's round is to say, where it offers something.
pub fn offer(core: &CoreState, n: NodeId) -> Option<Offer>
    requires { n < 16 }
    ensures { option_map offer_of result ≡ (core_of core.now).offer n }
{
    core.offers[n as usize]
}

/// The roles of legs 0 to 7.
pub fn eight(r: &Roles) -> Roles
    ensures { result ≡ eight (role_of r.now) }
{
    Roles {
        legs: [
            r.of(0),
            r.of(1),
            r.of(2),
            r.of(3),
            r.of(4),
            r.of(5),
            r.of(6),
            r.of(7),
        ],
    }
}

fn body_of(core: &CoreState, offer: &Offer) -> Body
    ensures { result ≡ body_of (core_of core.now) (offer_of offer.now) offer.now.wish }
{
    let events = offer.events;
    let roles = eight(&offer.roles);
    let size = offer.size;
    match offer.wish {
        Wish::Range(r) => Body::Resyncing(r),
        Wish::NewDisk(leg) => Body::NewDisk {
            leg,
            uuid: device_uuid(&core.identity.uuid, leg),
        },
        Wish::Remove(leg) => Body::Remove { leg },
        Wish::ReAdd(leg) => Body::ReAdd { leg },
        Wish::Unclean => Body::NeedsSync,
        Wish::Grow(_) => Body::Capacity {
            events,
            roles,
            size,
        },
        Wish::Meta | Wish::Spare(_) | Wish::Rebuild(_) | Wish::Work(_) => Body::Metadata {
            events,
            roles,
            size,
        },
    }
}

/// The block of the offer's message.
pub fn block_of(core: &CoreState, n: NodeId, offer: &Offer) -> Block
    requires { IsInRange (message_of (core_of core.now) n (offer_of offer.now)) }
    ensures { result ≡ block_of (core_of core.now) n (offer_of offer.now) }
{
    write_msg(&Msg {
        slot: n,
        body: body_of(core, offer),
    })
}
