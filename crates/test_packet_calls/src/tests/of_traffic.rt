mod fixture;
mod memory;
mod outward;
mod packets;
mod remembered;
