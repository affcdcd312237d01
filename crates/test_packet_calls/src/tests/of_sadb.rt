mod changes;
mod fixture;
mod laws;
mod limits;
mod memory;
mod one_association;
mod packets;
mod plain;
