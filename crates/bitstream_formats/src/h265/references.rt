//! Reference picture sets (section 7.3.7).

use super::{H265Error, Nal};
use crate::element::Index;
use crate::nal::read_ue;

/// The distances from a picture to other pictures in output order, the nearest one first.
#[derive(Clone, Copy)]
struct Distances {
    values: [i64; 16],
    count: usize,
}

impl Distances {
    /// Returns a list without distances.
    fn new() -> Distances {
        Distances {
            values: [0; 16],
            count: 0,
        }
    }

    /// Returns the distances.
    fn as_slice(&self) -> &[i64] {
        self.values.as_slice().get(..self.count).unwrap_or(&[])
    }

    /// Appends a distance.
    fn push(&mut self, distance: i64) -> Result<(), H265Error> {
        let Some(value) = self.values.as_mut_slice().get_mut(self.count) else {
            return Err(H265Error::TooManyReferences);
        };
        *value = distance;
        self.count = self.count.saturating_add(1);
        Ok(())
    }
}

/// The pictures to which a picture refers, by their distances.
#[derive(Clone, Copy)]
struct ReferenceSet {
    // The pictures before it.
    before: Distances,
    // The pictures after it.
    after: Distances,
}

impl ReferenceSet {
    /// Returns a set without pictures.
    fn new() -> ReferenceSet {
        ReferenceSet {
            before: Distances::new(),
            after: Distances::new(),
        }
    }

    /// Returns the number of pictures.
    fn count(&self) -> usize {
        self.before.count.saturating_add(self.after.count)
    }
}

/// A prediction of a set from another one. A number is added to each distance, and the other set's own
/// picture is a candidate too.
#[derive(Clone, Copy)]
struct Prediction {
    set: ReferenceSet,
    // The number that is added to each distance.
    by: i64,
    // True for each picture that is used: the pictures before, the pictures after, the picture itself.
    used: [bool; 33],
}

impl Prediction {
    /// Returns the distance of an earlier picture by its index, if the picture is used.
    fn before(&self, at: usize) -> Option<i64> {
        self.moved(self.set.before.as_slice(), at, at)
    }

    /// Returns the distance of a later picture by its index, if the picture is used.
    fn after(&self, at: usize) -> Option<i64> {
        let number = self.set.before.count.saturating_add(at);
        self.moved(self.set.after.as_slice(), at, number)
    }

    /// Returns the distance of the picture itself, if it is used.
    fn itself(&self) -> Option<i64> {
        self.moved(&[0], 0, self.set.count())
    }

    /// Returns the distance at the index `at` plus the added number, if the picture `number` is used.
    fn moved(&self, distances: &[i64], at: usize, number: usize) -> Option<i64> {
        let distance = distances.get(at)?;
        match self.used.as_slice().get(number) {
            Some(true) => Some(distance.saturating_add(self.by)),
            _ => None,
        }
    }

    /// Returns the distances of the earlier pictures (equation 7-61).
    fn all_before(&self) -> Result<Distances, H265Error> {
        let mut distances = Distances::new();
        for at in (0..self.set.after.count).rev() {
            push_before(&mut distances, self.after(at))?;
        }
        push_before(&mut distances, self.itself())?;
        for at in 0..self.set.before.count {
            push_before(&mut distances, self.before(at))?;
        }
        Ok(distances)
    }

    /// Returns the distances of the later pictures (equation 7-62).
    fn all_after(&self) -> Result<Distances, H265Error> {
        let mut distances = Distances::new();
        for at in (0..self.set.before.count).rev() {
            push_after(&mut distances, self.before(at))?;
        }
        push_after(&mut distances, self.itself())?;
        for at in 0..self.set.after.count {
            push_after(&mut distances, self.after(at))?;
        }
        Ok(distances)
    }
}

/// Appends a distance if it is negative.
fn push_before(distances: &mut Distances, distance: Option<i64>) -> Result<(), H265Error> {
    match distance {
        Some(distance) if distance < 0 => distances.push(distance),
        _ => Ok(()),
    }
}

/// Appends a distance if it is positive.
fn push_after(distances: &mut Distances, distance: Option<i64>) -> Result<(), H265Error> {
    match distance {
        Some(distance) if distance > 0 => distances.push(distance),
        _ => Ok(()),
    }
}

/// Reads the short-term reference picture sets of a sequence parameter set.
pub(super) fn read_short_term_sets(syntax: &mut Nal<'_, '_, '_>) -> Result<(), H265Error> {
    let count = read_ue(syntax, "num_short_term_ref_pic_sets")?;
    if count > 64 {
        return Err(H265Error::TooManyReferenceSets);
    }
    let mut set = ReferenceSet::new();
    for at in 0..count {
        let is_predicted = at > 0 && syntax.flag("inter_ref_pic_set_prediction_flag")?;
        set = if is_predicted {
            read_predicted_set(syntax, set)?
        } else {
            read_set(syntax)?
        };
        syntax.index = None;
    }
    Ok(())
}

/// Reads a set without prediction.
fn read_set(syntax: &mut Nal<'_, '_, '_>) -> Result<ReferenceSet, H265Error> {
    let before = read_ue(syntax, "num_negative_pics")?;
    let after = read_ue(syntax, "num_positive_pics")?;
    if before.saturating_add(after) > 16 {
        return Err(H265Error::TooManyReferences);
    }
    Ok(ReferenceSet {
        before: read_before(syntax, before)?,
        after: read_after(syntax, after)?,
    })
}

/// Reads the distances of the earlier pictures.
fn read_before(syntax: &mut Nal<'_, '_, '_>, count: u32) -> Result<Distances, H265Error> {
    let mut distances = Distances::new();
    let mut distance = 0i64;
    for at in 0..count {
        syntax.index = Some(Index::One(at));
        let step = read_ue(syntax, "delta_poc_s0_minus1")? as i64;
        syntax.flag("used_by_curr_pic_s0_flag")?;
        distance = distance.saturating_sub(step.saturating_add(1));
        distances.push(distance)?;
    }
    Ok(distances)
}

/// Reads the distances of the later pictures.
fn read_after(syntax: &mut Nal<'_, '_, '_>, count: u32) -> Result<Distances, H265Error> {
    let mut distances = Distances::new();
    let mut distance = 0i64;
    for at in 0..count {
        syntax.index = Some(Index::One(at));
        let step = read_ue(syntax, "delta_poc_s1_minus1")? as i64;
        syntax.flag("used_by_curr_pic_s1_flag")?;
        distance = distance.saturating_add(step.saturating_add(1));
        distances.push(distance)?;
    }
    Ok(distances)
}

/// Reads a set that is predicted from the previous one.
fn read_predicted_set(
    syntax: &mut Nal<'_, '_, '_>,
    set: ReferenceSet,
) -> Result<ReferenceSet, H265Error> {
    let is_negative = syntax.flag("delta_rps_sign")?;
    let size = (read_ue(syntax, "abs_delta_rps_minus1")? as i64).saturating_add(1);
    let prediction = Prediction {
        set,
        by: if is_negative {
            0i64.saturating_sub(size)
        } else {
            size
        },
        used: read_used(syntax, set.count().min(32) as u32)?,
    };
    Ok(ReferenceSet {
        before: prediction.all_before()?,
        after: prediction.all_after()?,
    })
}

/// Reads the flags of the previous set's pictures that are used, and last the flag of its own picture.
fn read_used(syntax: &mut Nal<'_, '_, '_>, count: u32) -> Result<[bool; 33], H265Error> {
    let mut used = [false; 33];
    for at in 0..=count {
        syntax.index = Some(Index::One(at));
        let is_used = syntax.flag("used_by_curr_pic_flag")? || syntax.flag("use_delta_flag")?;
        if let Some(flag) = used.as_mut_slice().get_mut(at as usize) {
            *flag = is_used;
        }
    }
    Ok(used)
}

/// Reads the long-term reference pictures of a sequence parameter set. An order count has `bits` bits.
pub(super) fn read_long_term(syntax: &mut Nal<'_, '_, '_>, bits: u32) -> Result<(), H265Error> {
    let count = read_ue(syntax, "num_long_term_ref_pics_sps")?;
    if count > 32 {
        return Err(H265Error::TooManyLongTerm);
    }
    for at in 0..count {
        syntax.index = Some(Index::One(at));
        syntax.number("lt_ref_pic_poc_lsb_sps", bits)?;
        syntax.flag("used_by_curr_pic_lt_sps_flag")?;
    }
    syntax.index = None;
    Ok(())
}
