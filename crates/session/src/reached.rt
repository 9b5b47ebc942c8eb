//! What a turn led to, besides its store.

ghost use Rattle.std.specs.Prelude.{◌≡◌, [], IfOk, IsTrue, OnOk, true};
ghost use Rattle.machine_picture.specs.Represented.{styles_of};
ghost use Rattle.session.specs.Showing.{shown_of};

use crate::marking::marked_beside;
use machine_picture::Styles;
use session_lines::KeptBytes;
use std::alloc::{AllocError, Global};
use std::marker::Model;
use std::mem;
use zcore::Place;
use zcore_standard::KeptStates;

/// The style without reverse, bold, italic and fixed pitch.
pub(crate) const PLAIN: u8 = 0;

/// What a turn led to, besides its store.
#[derive(Drop)]
pub(crate) struct Reached {
    led: Led,
}

/// Where a turn left the machine; and the rest, where it is not nothing: most turns take less room so.
#[derive(Drop)]
enum Led {
    Bare(Place),
    More(Place, Box<Extras>),
}

/// What only some turns lead to.
#[derive(Drop)]
struct Extras {
    /// The states that the story has kept.
    kept: KeptStates,

    /// What the turn drew in the upper window.
    drawing: KeptBytes,

    /// Where styles are kept, the one in which the story prints then, else 0.
    style: u8,

    /// Where styles are kept, what the turn printed, with marks, else nothing.
    marked: KeptBytes,
}

impl Model for Reached {
    ghost use Rattle.session.specs.Reached.{Reached, reached_of};

    ghost Value = { Reached };

    ghost view = { λ r. reached_of r.led };
}

impl Reached {
    /// What a turn led to that left the machine at this place, and drew this, where no styles are kept; what the
    /// story has kept is taken out of `kept`. Where that is nothing, and nothing was drawn, it takes no memory.
    ///
    /// # Errors
    ///
    /// Memory was refused.
    #[inline(always)]
    pub(crate) fn of(
        alloc: Global,
        place: Place,
        kept: &mut KeptStates,
        drawn: &[u8],
    ) -> Result<Reached, AllocError>
        ensures { IfOk result
            (λ r. r ≡ record {
              place = place;
              kept = kept.old;
              shown = record { drawing = drawn.now; style = 0; marked = [] };
            }) }
    {
        if are_none(kept, drawn) {
            return Ok(Reached {
                led: Led::Bare(place),
            });
        }
        let all = mem::replace(kept, KeptStates::none(alloc));
        let extras = box_extras(alloc, all, drawn, PLAIN, &[])?;
        Ok(Reached {
            led: Led::More(place, extras),
        })
    }

    /// The same where styles are kept, and the turn printed a text of these styles, where a screen draws at most so
    /// many rows of the upper window, if there is one.
    ///
    /// # Errors
    ///
    /// Memory was refused.
    #[inline(never)]
    pub(crate) fn marked_of(
        alloc: Global,
        place: Place,
        kept: &mut KeptStates,
        drawn: &[u8],
        text: &[u8],
        rows: Option<u8>,
        styles: &Styles,
    ) -> Result<Reached, AllocError>
        ensures { IfOk result
            (λ r. r ≡ record {
              place = place;
              kept = kept.old;
              shown = shown_of rows true drawn.now text.now (styles_of styles.now);
            }) }
    {
        let marked = marked_beside(alloc, rows, drawn, text, styles)?;
        let all = mem::replace(kept, KeptStates::none(alloc));
        let extras = box_extras(alloc, all, drawn, styles.style(), &marked)?;
        Ok(Reached {
            led: Led::More(place, extras),
        })
    }

    /// Where it left the machine.
    #[inline]
    pub(crate) fn place(&self) -> Place
        ensures { result ≡ self.now.place }
    {
        match &self.led {
            Led::Bare(place) => *place,
            Led::More(place, _) => *place,
        }
    }

    /// Puts the states that the story has kept in place of others. Their files are not copied.
    ///
    /// # Errors
    ///
    /// Memory was refused: nothing has changed.
    #[inline(always)]
    pub(crate) fn share_kept(&self, kept: &mut KeptStates) -> Result<(), AllocError>
        ensures { OnOk result (kept.new ≡ self.now.kept) }
    {
        match &self.led {
            Led::More(_, extras) => share(&extras.kept, kept),
            Led::Bare(_) => {
                drop_kept(kept);
                Ok(())
            }
        }
    }

    /// What the turn drew in the upper window.
    pub(crate) fn drawing(&self) -> &[u8]
        ensures { result.now ≡ self.now.shown.drawing }
    {
        match &self.led {
            Led::More(_, extras) => extras.drawing.as_slice(),
            Led::Bare(_) => &[],
        }
    }

    /// The style in which the story prints then, where styles are kept, else 0.
    pub(crate) fn style(&self) -> u8
        ensures { result ≡ self.now.shown.style }
    {
        match &self.led {
            Led::More(_, extras) => extras.style,
            Led::Bare(_) => PLAIN,
        }
    }

    /// What the turn printed, with marks, where styles are kept, else nothing.
    pub(crate) fn marked(&self) -> &[u8]
        ensures { result.now ≡ self.now.shown.marked }
    {
        match &self.led {
            Led::More(_, extras) => extras.marked.as_slice(),
            Led::Bare(_) => &[],
        }
    }
}

/// Puts states in place of others. It is a function of its own, since most turns have none.
///
/// # Errors
///
/// Memory was refused: nothing has changed.
#[inline(never)]
fn share(from: &KeptStates, kept: &mut KeptStates) -> Result<(), AllocError>
    ensures { OnOk result (kept.new ≡ from.now) }
{
    *kept = from.share()?;
    Ok(())
}

/// What is not nothing, in memory of its own. It is a function of its own, since most turns have none.
///
/// # Errors
///
/// Memory was refused.
#[inline(never)]
fn box_extras(
    alloc: Global,
    kept: KeptStates,
    drawn: &[u8],
    style: u8,
    marked: &[u8],
) -> Result<Box<Extras>, AllocError>
    ensures { IfOk result (λ b. b.value
        ≡ record { kept = kept; drawing = drawn.now; style = style; marked = marked.now }) }
{
    let drawing = KeptBytes::of(alloc, drawn)?;
    let marked = KeptBytes::of(alloc, marked)?;
    let extras = Extras {
        kept,
        drawing,
        style,
        marked,
    };
    Ok(Box::new(alloc, extras)?)
}

/// Whether no state is kept, and nothing was drawn.
#[inline]
fn are_none(kept: &KeptStates, drawn: &[u8]) -> bool
    ensures { IsTrue result → (kept.now ≡ []) × (drawn.now ≡ []) }
{
    if drawn.len() > 0 {
        return false;
    }
    keeps_none(kept)
}

/// Whether no state is kept.
#[inline]
fn keeps_none(kept: &KeptStates) -> bool
    ensures { IsTrue result → kept.now ≡ [] }
{
    match kept.newest() {
        Some(_) => false,
        None => true,
    }
}

/// Keeps no state longer.
#[inline]
pub(crate) fn drop_kept(kept: &mut KeptStates)
    ensures { kept.new ≡ [] }
{
    if !keeps_none(kept) {
        *kept = KeptStates::none(kept.alloc());
    }
}
