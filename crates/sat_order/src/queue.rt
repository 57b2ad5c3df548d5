//! The VMTF queue of decisions (variable move to front, Ryan 2004, with stamps as in Biere and Froehlich 2015): variables of newer
//! conflicts are decided first. A list in both directions; a variable is moved to its end, and gets a stamp greater than all
//! others. The variable from which the search for an open one begins is one behind which none is open.

use sat_arena::trail::{Value, is_open};
use sat_arena::words::{NONE, at_or, filled, push, put};
use std::alloc::Global;

/// The neighbours of a variable, and its stamp.
#[derive(Clone, Copy)]
struct Link {
    previous: u32,
    next: u32,
    stamp: u64,
}

const NO_LINK: Link = Link {
    previous: NONE,
    next: NONE,
    stamp: 0,
};

/// Variables in the order in which they are decided, the first one at the end.
pub struct Queue {
    links: Vec<Link>,
    last: u32,
    /// Where the search for an open variable is. None is open behind it.
    pub search: u32,
    stamp: u64,
}

impl Drop for Queue {
    fn drop(self) {
        let Queue {
            links: _,
            last: _,
            search: _,
            stamp: _,
        } = self;
    }
}

impl Queue {
    /// So many variables, the greatest first, or none, where it notes that there is no room.
    pub fn new(alloc: Global, vars: u32, is_short: &mut bool) -> Queue {
        let mut queue = Queue {
            links: filled(alloc, NO_LINK, vars as usize, is_short),
            last: NONE,
            search: NONE,
            stamp: 0,
        };
        for var in 0..vars {
            queue.append(var);
        }
        queue.rewind();
        queue
    }

    // The link of a variable.
    fn link(&self, var: u32) -> Link {
        at_or(&self.links, var as usize, NO_LINK)
    }

    /// The stamp of a variable.
    pub fn stamp(&self, var: u32) -> u64 {
        let link = self.link(var);
        link.stamp
    }

    // Joins the neighbours of a variable.
    fn unlink(&mut self, link: Link) {
        let before = Link {
            next: link.next,
            ..self.link(link.previous)
        };
        put(&mut self.links, link.previous as usize, before);
        let behind = Link {
            previous: link.previous,
            ..self.link(link.next)
        };
        put(&mut self.links, link.next as usize, behind);
    }

    // Puts a variable at the end of the list.
    fn append(&mut self, var: u32) {
        let last = Link {
            next: var,
            ..self.link(self.last)
        };
        put(&mut self.links, self.last as usize, last);
        self.stamp = self.stamp.saturating_add(1);
        let link = Link {
            previous: self.last,
            next: NONE,
            stamp: self.stamp,
        };
        put(&mut self.links, var as usize, link);
        self.last = var;
    }

    /// Moves a variable to the end.
    pub fn bump(&mut self, var: u32, is_open: bool) {
        let link = self.link(var);
        if link.next != NONE {
            if self.search == var {
                self.search = if link.previous == NONE {
                    link.next
                } else {
                    link.previous
                };
            }
            self.unlink(link);
            self.append(var);
        }
        if is_open {
            self.search = var;
        }
    }

    /// Takes a variable out for ever.
    pub fn remove(&mut self, var: u32) {
        let link = self.link(var);
        if self.search == var {
            self.search = link.previous;
        }
        if self.last == var {
            self.last = link.previous;
        }
        self.unlink(link);
        put(&mut self.links, var as usize, NO_LINK);
    }

    /// Notes that a variable is open again.
    pub fn reopen(&mut self, var: u32) {
        if self.stamp(var) > self.stamp(self.search) {
            self.search = var;
        }
    }

    /// Lets the search for an open variable begin at the end.
    pub fn rewind(&mut self) {
        self.search = self.last;
    }

    /// The open variable that comes first, if there is one.
    pub fn open_variable(&mut self, values: &[Value], gone: &[bool]) -> Option<u32> {
        for _ in 0..values.len() {
            let var = self.search;
            if var == NONE {
                return None;
            }
            if is_open(values, gone, var) {
                return Some(var);
            }
            let link = self.link(var);
            self.search = link.previous;
        }
        None
    }

    /// Moves variables to the end, in the order in which they stand.
    pub fn bump_all(&mut self, ranked: &[(u64, u32)], values: &[Value], gone: &[bool]) {
        for (_, var) in ranked {
            self.bump(*var, is_open(values, gone, *var));
        }
    }

    /// Variables behind their stamps, the oldest first. Where there is no room for them, that is noted.
    pub fn rank_all(&self, vars: &[u32], ranked: &mut Vec<(u64, u32)>, is_short: &mut bool) {
        ranked.clear();
        for var in vars {
            push(ranked, (self.stamp(*var), *var), is_short);
        }
        ranked.sort_unstable();
    }
}
