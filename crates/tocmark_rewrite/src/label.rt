//! What a link by a label says: it is in the label's definition.

use crate::destination::redirection;
use crate::link::LinkParts;
use crate::patch::Patch;
use crate::title::retitling;
use std::alloc::{AllocError, Global};
use tocmark_reader::DefinitionPlace;

/// What a definition is to say.
#[derive(Drop)]
pub(crate) struct DefinitionChange {
    old_destination: String,
    destination: String,
    /// The new title, if it is another one.
    title: Option<String>,
}

impl DefinitionChange {
    /// What the definition of a link's label is to say.
    pub(crate) fn of(
        alloc: Global,
        old: LinkParts<'_>,
        new: LinkParts<'_>,
    ) -> Result<DefinitionChange, AllocError> {
        let title = if old.title == new.title {
            None
        } else {
            Some(String::from_str(alloc, new.title)?)
        };
        Ok(DefinitionChange {
            old_destination: String::from_str(alloc, old.destination)?,
            destination: String::from_str(alloc, new.destination)?,
            title,
        })
    }

    /// Adds the patches of the definition at a place.
    pub(crate) fn add(
        &self,
        alloc: Global,
        source: &str,
        place: DefinitionPlace,
        list: &mut Vec<Patch>,
    ) -> Result<(), AllocError> {
        let (old, new) = (self.old_destination.as_str(), self.destination.as_str());
        if old != new {
            list.push(redirection(alloc, source, place, old, new)?)?;
        }
        if let Some(title) = &self.title {
            list.push(retitling(alloc, place, title.as_str())?)?;
        }
        Ok(())
    }
}
