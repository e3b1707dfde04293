//! What is selected on each logical channel.
ghost use Rattle.std.specs.Prelude.{◌≡◌, ◌≤◌, ◌<◌, [], ◌∷◌, true, length, None, Some, slice_set, IfSome, IsSomeAnd};
ghost use Rattle.file_model.specs.Channels.{basic_channel_alone, selected_on, is_open, closed_channel, first_selection};

use file_model::Selection;
use std::marker::Model;

/// The logical channels 0 to 3 (ETSI TS 102 221, 8.7). The basic channel, 0, is always open.
#[derive(Debug, Drop)]
pub struct Channels {
    basic: Selection,
    first: Option<Selection>,
    second: Option<Selection>,
    third: Option<Selection>,
}

impl Model for Channels {
    ghost use Rattle.std.specs.Prelude.{List, [], ◌∷◌, Option, Some};
    ghost use Rattle.file_model.specs.declared.selections.Selection.{Selection};

    ghost Value = { List (Option Selection) };

    ghost view = { λ channels. Some channels.basic ∷ channels.first ∷ channels.second ∷ channels.third ∷ [] };
}

impl Channels {
    /// The basic channel alone is open, with the MF selected.
    pub fn new() -> Channels
        ensures { result ≡ basic_channel_alone }
    {
        Channels {
            basic: Selection::AT_START,
            first: None,
            second: None,
            third: None,
        }
    }

    /// There are four of them. Does nothing.
    pub fn are_four(&self)
        ensures { length self.now ≡ 4 }
    {
        let _basic = self.basic;
    }

    /// The basic channel is open. Does nothing.
    pub fn basic_is_open(&self)
        ensures { is_open self.now 0 ≡ true }
    {
        let _basic = self.basic;
    }

    /// What is selected on a channel, if it is open.
    pub fn selected(&self, n: u8) -> Option<Selection>
        ensures { result ≡ selected_on self.now n }
    {
        // Most commands come on the basic channel.
        if n == 0 {
            Some(self.basic)
        } else {
            self.selected_beside(n)
        }
    }

    // What is selected on a channel other than the basic one, if it is open.
    #[inline(never)]
    fn selected_beside(&self, n: u8) -> Option<Selection>
        requires { 1 ≤ n }
        ensures { result ≡ selected_on self.now n }
    {
        match n {
            1 => self.first,
            2 => self.second,
            3 => self.third,
            _ => None,
        }
    }

    /// Whether a channel is open.
    pub fn is_open(&self, n: u8) -> bool
        ensures { result ≡ is_open self.now n }
    {
        self.selected(n).is_some()
    }

    /// Opens the smallest channel that is closed, and answers its number; None, and no change, exactly where 1, 2 and 3 are
    /// open. From the basic channel it begins at the MF, from another with the current DF of that and no current EF.
    pub fn open(&mut self, from: u8) -> Option<u8>
        requires { is_open self.old from ≡ true }
        ensures number { result ≡ closed_channel self.old }
        ensures opened { IfSome result (λ n. IsSomeAnd (selected_on self.old from)
            (λ selection. self.new ≡ slice_set self.old n (Some (first_selection from selection)))) }
        ensures full { result ≡ None → self.new ≡ self.old }
    {
        let opened = Some(self.first_selection(from));
        if self.first.is_none() {
            self.first = opened;
            Some(1)
        } else if self.second.is_none() {
            self.second = opened;
            Some(2)
        } else if self.third.is_none() {
            self.third = opened;
            Some(3)
        } else {
            None
        }
    }

    // What a channel begins with that is opened from this one.
    fn first_selection(&self, from: u8) -> Selection
        requires { is_open self.now from ≡ true }
        ensures { IsSomeAnd (selected_on self.now from) (λ selection. result ≡ first_selection from selection) }
    {
        match self.selected(from) {
            Some(selection) if from != 0 => Selection {
                df: selection.df,
                ef: None,
                pointer: None,
            },
            _ => Selection::AT_START,
        }
    }

    /// Closes a channel other than the basic one. False, and no change, exactly where it isn't open.
    pub fn close(&mut self, n: u8) -> bool
        requires other { 1 ≤ n }
        requires channel { n ≤ 3 }
        ensures was_open { result ≡ is_open self.old n }
        ensures closed { self.new ≡ slice_set self.old n None }
    {
        let was_open = self.is_open(n);
        match n {
            1 => self.first = None,
            2 => self.second = None,
            _ => self.third = None,
        }
        was_open
    }

    /// Selects this on an open channel.
    pub fn set(&mut self, n: u8, selection: Selection)
        requires { is_open self.old n ≡ true }
        ensures { self.new ≡ slice_set self.old n (Some selection) }
    {
        if n == 0 {
            self.basic = selection;
        } else {
            self.set_beside(n, selection);
        }
    }

    // Selects this on an open channel other than the basic one.
    #[inline(never)]
    fn set_beside(&mut self, n: u8, selection: Selection)
        requires other { 1 ≤ n }
        requires open { is_open self.old n ≡ true }
        ensures { self.new ≡ slice_set self.old n (Some selection) }
    {
        match n {
            1 => self.first = Some(selection),
            2 => self.second = Some(selection),
            _ => self.third = Some(selection),
        }
    }
}

impl Channels {
    ghost use Rattle.std.specs.Borrow.{sem};
    ghost use Rattle.file_tree.specs.Lending.{LendsSelection};

    /// What is selected on an open channel, for a command that may change it.
    pub fn selection(&mut self, n: u8) -> &mut Selection
        requires { is_open self.old n ≡ true }
        ensures* lends { sem 𝓛 (LendsSelection self.entry n result) }
        ensures value { selected_on self.old n ≡ Some result.now }
    {
        match n {
            0 => &mut self.basic,
            1 => self.first.get_or_insert(Selection::AT_START),
            2 => self.second.get_or_insert(Selection::AT_START),
            _ => self.third.get_or_insert(Selection::AT_START),
        }
    }
}
