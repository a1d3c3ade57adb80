//! Lists of handles, linked through the places that the handles name.
#![tactic(auto)]

ghost use Rattle.std.specs.Prelude.{◌≡◌, ◌+◌, ℕ, Some, ◌≤◌, ◌<◌, [], ◌∷◌, ◌++◌, false, true, length, replicate, IfOk, slice_get};
ghost use Rattle.handle_pool.specs.Slots.{slot_of};
ghost use Rattle.linked_places.specs.Links.{links_followed, links_following, IsBelow};
ghost use Rattle.linked_places.specs.Lists.{list_at, stands_at, has_handle, without_handle, NowhereAt, with_list};

use handle_pool::SPAN;
use std::alloc::{AllocError, Global};
use std::marker::Model;

/// One place: the handle that stands there, and the places before and after it in its list.
#[derive(Clone, Copy, Debug, Drop)]
struct Link {
    handle: u64,
    previous: Option<u32>,
    next: Option<u32>,
}

/// The ends of a list, and how many handles it has.
#[derive(Clone, Copy, Debug, Drop)]
struct Ends {
    first: Option<u32>,
    last: Option<u32>,
    count: u32,
}

/// So many lists of handles, over so many places. A place stands in one list at most.
#[derive(Drop)]
pub struct LinkedLists {
    links: Vec<Link>,
    ends: Vec<Ends>,
}

impl Model for LinkedLists {
    ghost use Rattle.std.specs.Prelude.{map, length};
    ghost use Rattle.linked_places.specs.Lists.{HandleLists};

    ghost Value = { HandleLists };

    ghost use Rattle.linked_places.specs.Links.{linked_handles, IsLinked};

    ghost view = { λ l. record {
      places = length l.links.items;
      lists = map (linked_handles l.links.items) l.ends.items;
    } };

    ghost invariant = { λ l. IsLinked l.links.items l.ends.items (map (linked_handles l.links.items) l.ends.items) };
}

const NO_LINK: Link = Link {
    handle: 0,
    previous: None,
    next: None,
};

const NO_ENDS: Ends = Ends {
    first: None,
    last: None,
    count: 0,
};

impl LinkedLists {
    /// So many empty lists over so many places, with all the memory that they will use.
    ///
    /// # Errors
    ///
    /// - `AllocError`: memory ran out.
    pub fn new(alloc: Global, lists: u32, places: u32) -> Result<LinkedLists, AllocError>
        requires { places ≤ 65536 }
        ensures places { IfOk result (λ l. l.places ≡ places) }
        ensures lists { IfOk result (λ l. l.lists ≡ replicate lists []) }
    {
        Ok(LinkedLists {
            links: no_links(alloc, places)?,
            ends: no_ends(alloc, lists)?,
        })
    }

    /// Puts a handle at the end of a list.
    pub fn push(&mut self, list: u32, handle: u64)
        requires list { list < length self.old.lists }
        requires place { slot_of handle < self.old.places }
        requires nowhere { NowhereAt (slot_of handle) self.old.lists }
        ensures { self.new ≡ with_list self.old list (list_at self.old.lists list ++ handle ∷ []) }
    {
        let ends = self.ends[list as usize];
        let place = (handle % SPAN) as u32;
        let link = Link {
            handle,
            previous: ends.last,
            next: None,
        };
        set_next(&mut self.links, ends.last, Some(place));
        self.links[place as usize] = link;
        self.ends[list as usize] = Ends {
            first: ends.first.or(Some(place)),
            last: Some(place),
            count: ends.count + 1,
        };
    }

    /// Takes a handle out of a list.
    pub fn remove(&mut self, list: u32, handle: u64)
        requires { has_handle handle (list_at self.old.lists list) ≡ true }
        ensures new { self.new ≡ with_list self.old list (without_handle handle (list_at self.old.lists list)) }
        ensures gone { NowhereAt (slot_of handle) self.new.lists }
        ensures place { slot_of handle < self.old.places }
    {
        let link = self.links[(handle % SPAN) as usize];
        set_next(&mut self.links, link.previous, link.next);
        set_previous(&mut self.links, link.next, link.previous);
        let ends = self.ends[list as usize];
        self.ends[list as usize] = ends.without(link);
    }

    /// Empties a list.
    pub fn clear(&mut self, list: u32)
        requires { list < length self.old.lists }
        ensures { self.new ≡ with_list self.old list [] }
    {
        self.ends[list as usize] = NO_ENDS;
    }

    /// The first handle of a list; none exactly where it is empty.
    pub fn first(&self, list: u32) -> Option<u64>
        requires { list < length self.now.lists }
        ensures { result ≡ slice_get (list_at self.now.lists list) 0 }
    {
        match self.ends[list as usize].first {
            Some(place) => Some(self.links[place as usize].handle),
            None => None,
        }
    }

    /// The handle after this one in its list; none exactly where this one is the last.
    pub fn next(&self, handle: u64) -> Option<u64>
        requires { (list : ℕ) × (has_handle handle (list_at self.now.lists list) ≡ true) }
        ensures { (list i : ℕ) → slice_get (list_at self.now.lists list) i ≡ Some handle
            → result ≡ slice_get (list_at self.now.lists list) (i + 1) }
    {
        match self.links[(handle % SPAN) as usize].next {
            Some(after) => Some(self.links[after as usize].handle),
            None => None,
        }
    }

    /// How many handles a list has.
    pub fn len(&self, list: u32) -> u32
        requires { list < length self.now.lists }
        ensures count { result ≡ length (list_at self.now.lists list) }
        ensures few { result ≤ self.now.places }
    {
        self.ends[list as usize].count
    }
}

impl Ends {
    ghost use Rattle.linked_places.specs.Links.{ends_without};

    // The ends of the list without the handle of this link.
    fn without(self, link: Link) -> Ends
        requires { 0 < self.count }
        ensures { result ≡ ends_without self link }
    {
        Ends {
            first: if link.previous.is_none() {
                link.next
            } else {
                self.first
            },
            last: if link.next.is_none() {
                link.previous
            } else {
                self.last
            },
            count: self.count - 1,
        }
    }
}

// Has a place, if there is one, be followed by another.
fn set_next(links: &mut Vec<Link>, place: Option<u32>, next: Option<u32>)
    requires { IsBelow (length links.old.items) place }
    ensures { links.new.items ≡ links_followed links.old.items place next }
{
    if let Some(place) = place {
        links[place as usize].next = next;
    }
}

// Has a place, if there is one, follow another.
fn set_previous(links: &mut Vec<Link>, place: Option<u32>, previous: Option<u32>)
    requires { IsBelow (length links.old.items) place }
    ensures { links.new.items ≡ links_following links.old.items place previous }
{
    if let Some(place) = place {
        links[place as usize].previous = previous;
    }
}

fn no_links(alloc: Global, places: u32) -> Result<Vec<Link>, AllocError>
    ensures { IfOk result (λ links. links.items ≡ replicate places NO_LINK) }
{
    let mut links = Vec::with_capacity(alloc, places as usize)?;
    for place in 0..places {
        links.push_reserved(NO_LINK);
    }
    Ok(links)
}

fn no_ends(alloc: Global, lists: u32) -> Result<Vec<Ends>, AllocError>
    ensures { IfOk result (λ ends. ends.items ≡ replicate lists NO_ENDS) }
{
    let mut ends = Vec::with_capacity(alloc, lists as usize)?;
    for list in 0..lists {
        ends.push_reserved(NO_ENDS);
    }
    Ok(ends)
}
