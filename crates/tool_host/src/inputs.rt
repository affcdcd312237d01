//! The further frames: what the gateway is given.
use crate::FrameFault;
use crate::fields::Fields;
use gateway::{Fresh, Input};

/// What a frame spells, with its fresh octets.
#[derive(Drop)]
pub enum Given<'a> {
    Ike {
        from: [u8; 4],
        fresh: Fresh,
        octets: &'a [u8],
    },
    Start {
        ike: Option<u32>,
        entry: u32,
        fresh: Fresh,
    },
    Probe {
        ike: u32,
        fresh: Fresh,
    },
    DeleteChild {
        child: u32,
        fresh: Fresh,
    },
    DeleteIke {
        ike: u32,
        fresh: Fresh,
    },
    Secret {
        secret: [u8; 32],
    },
    Tick {
        moment: u64,
    },
    Esp {
        octets: &'a [u8],
    },
    Outward {
        packet: &'a [u8],
    },
    Inward {
        packet: &'a [u8],
    },
}

impl<'a> Given<'a> {
    /// What a frame spells: a kind, and a body whose fields are those of the kind and no more.
    pub fn read(frame: &'a [u8]) -> Result<Given<'a>, FrameFault> {
        let mut fields = Fields::new(frame);
        match fields.octet()? {
            1 => ike(fields),
            2 => start(fields),
            3 => probe(fields),
            4 => delete_child(fields),
            5 => delete_ike(fields),
            6 => secret(fields),
            7 => tick(fields),
            kind => packet(kind, fields.rest()),
        }
    }

    /// The same for the gateway.
    pub fn input(&self) -> Input<'_> {
        match self {
            Given::Ike {
                from,
                fresh,
                octets,
            } => Input::Ike {
                from: *from,
                octets,
                fresh,
            },
            Given::Start { ike, entry, fresh } => Input::Start {
                ike: *ike,
                entry: *entry,
                fresh,
            },
            Given::Probe { ike, fresh } => Input::Probe { ike: *ike, fresh },
            Given::DeleteChild { child, fresh } => Input::DeleteChild {
                child: *child,
                fresh,
            },
            Given::DeleteIke { ike, fresh } => Input::DeleteIke { ike: *ike, fresh },
            Given::Secret { secret } => Input::Secret { secret },
            Given::Tick { moment } => Input::Tick { moment: *moment },
            Given::Esp { octets } => Input::Esp { octets },
            Given::Outward { packet } => Input::Outward { packet },
            Given::Inward { packet } => Input::Inward { packet },
        }
    }
}

fn ike(mut fields: Fields<'_>) -> Result<Given<'_>, FrameFault> {
    let from = fields.array()?;
    let fresh = fresh(&mut fields)?;
    let octets = fields.rest();
    Ok(Given::Ike {
        from,
        fresh,
        octets,
    })
}

fn start(mut fields: Fields<'_>) -> Result<Given<'_>, FrameFault> {
    let ike = serial(fields.u32()?);
    let entry = fields.u32()?;
    let fresh = fresh(&mut fields)?;
    fields.end()?;
    Ok(Given::Start { ike, entry, fresh })
}

fn probe(mut fields: Fields<'_>) -> Result<Given<'_>, FrameFault> {
    let ike = fields.u32()?;
    let fresh = fresh(&mut fields)?;
    fields.end()?;
    Ok(Given::Probe { ike, fresh })
}

fn delete_child(mut fields: Fields<'_>) -> Result<Given<'_>, FrameFault> {
    let child = fields.u32()?;
    let fresh = fresh(&mut fields)?;
    fields.end()?;
    Ok(Given::DeleteChild { child, fresh })
}

fn delete_ike(mut fields: Fields<'_>) -> Result<Given<'_>, FrameFault> {
    let ike = fields.u32()?;
    let fresh = fresh(&mut fields)?;
    fields.end()?;
    Ok(Given::DeleteIke { ike, fresh })
}

fn secret(mut fields: Fields<'_>) -> Result<Given<'_>, FrameFault> {
    let secret = fields.array()?;
    fields.end()?;
    Ok(Given::Secret { secret })
}

fn tick(mut fields: Fields<'_>) -> Result<Given<'_>, FrameFault> {
    let moment = fields.u64()?;
    fields.end()?;
    Ok(Given::Tick { moment })
}

// What comes up to the end of the frame, with nothing beside it.
fn packet(kind: u8, octets: &[u8]) -> Result<Given<'_>, FrameFault> {
    match kind {
        8 => Ok(Given::Esp { octets }),
        9 => Ok(Given::Outward { packet: octets }),
        10 => Ok(Given::Inward { packet: octets }),
        _ => Err(FrameFault::Kind),
    }
}

// A serial, none where the number is 0.
fn serial(number: u32) -> Option<u32> {
    (number != 0).then_some(number)
}

fn fresh(fields: &mut Fields<'_>) -> Result<Fresh, FrameFault> {
    Ok(Fresh {
        spi: fields.u64()?,
        nonce: fields.array()?,
        secret: fields.array()?,
        seal: fields.array()?,
    })
}
