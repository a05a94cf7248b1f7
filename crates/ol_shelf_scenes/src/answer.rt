//! The catalog of a shelf and the plan of a restore in words.

use crate::number::byte;
use crate::trouble::Trouble;
use ol_catalog::CatalogFault;
use ol_object_spans::{Object, Place};
use ol_plan::{Catalog, Chain, Plan, PlanFault, plan_restore};
use std::alloc::Global;
use std::fmt;

const ARCHIVE_OBJECT: u8 = 1;

const LOG_OBJECT: u8 = 2;

/// Tells each object, a line each, and the end of the logs; or why there is no catalog.
///
/// `NoMemory` comes where memory was refused.
pub fn tell_catalog(
    alloc: Global,
    found: &Result<Catalog, CatalogFault>,
) -> Result<String, Trouble> {
    let mut told = String::new(alloc);
    match found {
        Ok(catalog) => {
            for object in catalog.as_slice() {
                tell_object(&mut told, object)?;
            }
            write!(told, "= end {}\n", catalog.end())?;
        }
        Err(fault) => tell_fault(&mut told, *fault)?,
    }
    Ok(told)
}

fn tell_fault(told: &mut String, fault: CatalogFault) -> Result<(), Trouble> {
    match fault {
        CatalogFault::ShelfFault { count } => write!(told, "= shelf fault {count}\n")?,
        CatalogFault::DamagedVolume(place) => {
            write!(told, "= damaged volume {}\n", At(place))?;
        }
        CatalogFault::NoMemory => return Err(Trouble::NoMemory),
    }
    Ok(())
}

/// Tells an object: what it is, where its blocks are, and the first bad one.
fn tell_object(told: &mut String, object: &Object) -> Result<(), Trouble> {
    let head = &object.head;
    write!(told, "= {} {}", kind_word(head.object), head.number)?;
    write!(told, " incarnation {}", head.incarnation)?;
    write!(told, " at {} blocks {}", At(object.place), object.blocks)?;
    match head.object {
        ARCHIVE_OBJECT => tell_archive(told, object)?,
        LOG_OBJECT => write!(told, " positions {} to {}", head.a, head.b)?,
        _ => write!(told, " end {}", head.a)?,
    }
    if let Some(bad) = object.bad {
        write!(told, " bad {}", At(bad))?;
    }
    told.push_str("\n")?;
    Ok(())
}

fn kind_word(object: u8) -> &'static str {
    match object {
        ARCHIVE_OBJECT => "archive",
        LOG_OBJECT => "log",
        _ => "mark",
    }
}

fn tell_archive(told: &mut String, object: &Object) -> Result<(), Trouble> {
    let head = &object.head;
    write!(told, " cut {} low {} level {}", head.a, head.b, head.c)?;
    if let Some((archive, _)) = &object.archive {
        tell_spaces(told, archive.spaces())?;
    }
    Ok(())
}

/// Tells each space of an archive, with its parent's archive number and its base.
fn tell_spaces(told: &mut String, spaces: &[(u8, u64, u64)]) -> Result<(), Trouble> {
    for (space, parent, base) in spaces {
        write!(told, " {space}:{parent}:{base}")?;
    }
    Ok(())
}

/// Tells the plan of a restore of these spaces: its end, the first position that it needs, and the first that has no log;
/// the archives of each space, and the logs, by their places. Or it tells why there is none.
///
/// `NoMemory` comes where memory was refused, `NoNumber` where a space is above 255.
pub fn tell_plan(
    alloc: Global,
    found: &Result<Catalog, CatalogFault>,
    spaces: &[u64],
    end: Option<u64>,
) -> Result<String, Trouble> {
    let mut told = String::new(alloc);
    let mut wanted = Vec::new(alloc);
    for space in spaces {
        wanted.push(byte(*space)?)?;
    }
    match found {
        Ok(catalog) => match plan_restore(alloc, catalog, &wanted, end) {
            Ok(plan) => tell_parts(&mut told, catalog.as_slice(), &plan)?,
            Err(fault) => tell_refusal(&mut told, fault)?,
        },
        Err(fault) => tell_fault(&mut told, *fault)?,
    }
    Ok(told)
}

fn tell_refusal(told: &mut String, fault: PlanFault) -> Result<(), Trouble> {
    match fault {
        PlanFault::MissingLevel {
            space,
            level,
            archive,
        } => write!(told, "= missing level {space} {level} {archive}\n")?,
        PlanFault::MissingLog { position } => write!(told, "= missing log {position}\n")?,
        PlanFault::DamagedVolume {
            drive,
            volume,
            block,
        } => write!(told, "= damaged volume {drive} {volume} {block}\n")?,
        PlanFault::NoMemory => return Err(Trouble::NoMemory),
    }
    Ok(())
}

fn tell_parts(told: &mut String, objects: &[Object], plan: &Plan) -> Result<(), Trouble> {
    write!(told, "= end {} low {}", plan.end, plan.low)?;
    if let Some(position) = plan.short {
        write!(told, " short {position}")?;
    }
    told.push_str("\n")?;
    for chain in &plan.chains {
        tell_chain(told, objects, chain)?;
    }
    told.push_str("= logs")?;
    tell_places(told, objects, &plan.logs)
}

fn tell_chain(told: &mut String, objects: &[Object], chain: &Chain) -> Result<(), Trouble> {
    write!(told, "= space {}", chain.space)?;
    tell_places(told, objects, &chain.archives)
}

/// Tells the places of the objects of these indexes.
fn tell_places(told: &mut String, objects: &[Object], indexes: &[usize]) -> Result<(), Trouble> {
    for index in indexes {
        match objects.get(*index) {
            Some(object) => write!(told, " at {}", At(object.place))?,
            None => told.push_str(" nowhere")?,
        }
    }
    told.push_str("\n")?;
    Ok(())
}

/// A place, which is shown by its drive, volume and block.
#[derive(Clone, Copy)]
struct At(Place);

impl fmt::Display for At {
    fn fmt<W: fmt::Write>(&self, f: &mut fmt::Formatter<W>) -> fmt::Result {
        let Place {
            drive,
            volume,
            block,
        } = self.0;
        write!(f, "{drive} {volume} {block}")
    }
}
