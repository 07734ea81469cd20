//! A chain carries parcels.
use crate::job::{Job, Room};
use crate::parcel::Parcel;
use waiter_chain::freight::Freight;

impl<V: Room, J: Job<V>> Freight for Parcel<V, J> {
    ghost use Rattle.combine_job.specs.Parcels.{Related, Admits, IsJob, Ruled};
    ghost use Rattle.combine_job.specs.Laws as laws;

    ghost relates = { Related V.rooms J.means };

    ghost admits = { Admits V.rooms };

    ghost is_job = { IsJob J.is_ready };

    ghost rule = { Ruled V.rooms J.means J.is_ready };

    ghost opens = { laws.opens V.rooms J.means J.is_ready };

    ghost posts = { laws.posts V.rooms J.means J.is_ready };

    ghost ends = { laws.ends V.rooms J.means J.is_ready };

    ghost serves = { laws.serves V.rooms J.means J.is_ready };

    ghost collects = { laws.collects V.rooms J.means J.is_ready };

    ghost cuts = { laws.cuts V.rooms J.means J.is_ready };

    ghost merges = { laws.merges V.rooms J.means J.is_ready };
}
