//! What the variables have.

ghost use Rattle.std.specs.Prelude.{◌≡◌, ℕ, ◌<◌, ◌≤◌, [], slice_index_or};
ghost use Rattle.svex_shape.specs.Values.{read, fitted};

use crate::shape::VarName;
use fourvec::{Four, all_unknown};
use std::marker::Model;

/// The values of the variables, a list for each kind by number. Contracts see the five lists.
#[derive(Drop)]
pub struct Env {
    pub present: Vec<Four>,
    pub previous: Vec<Four>,
    pub stim: Vec<Four>,
    pub chosen: Vec<Four>,
    pub sampled: Vec<Four>,
}

impl Model for Env {
    ghost use Rattle.svex_shape.specs.Values.{Rows};

    ghost Value = { Rows };

    ghost view = { λ e. record {
      present = e.present.items;
      previous = e.previous.items;
      stim = e.stim.items;
      chosen = e.chosen.items;
      sampled = e.sampled.items;
    } };
}

// A place of a list where it has the width.
#[tactic(auto, unfolding(crate::specs::Values::fitted))]
fn place(list: &[Four], at: usize, width: u8) -> Four
    requires some { 0 < width }
    requires most { width ≤ 128 }
    ensures { result ≡ fitted width (slice_index_or list.now at []) }
{
    if at < list.len() && list[at].width() == width {
        list[at]
    } else {
        all_unknown(width)
    }
}

impl Env {
    /// The value of a variable at a width. X at every bit where it is absent or has another width.
    pub fn read(&self, name: &VarName, width: u8) -> Four
        requires some { 0 < width }
        requires most { width ≤ 128 }
        ensures { result ≡ read self.now name.now width }
    {
        match name {
            VarName::Now(at) => place(&self.present, *at, width),
            VarName::Prev(at) => place(&self.previous, *at, width),
            VarName::Stim(at) => place(&self.stim, *at, width),
            VarName::Chosen(at) => place(&self.chosen, *at, width),
            VarName::Sampled(at) => place(&self.sampled, *at, width),
        }
    }
}
