ghost use Rattle.std.specs.Prelude.{◌≡◌, ◌<◌, length};
ghost use Rattle.ix_links.specs.Linking.{Within, link_at, next_set, previous_set, first_set, last_set, unlinked_items, unlinked_ends, inserted_items, inserted_ends};

/// The neighbours of an item in its chain. None is there before the first and after the last.
#[derive(Clone, Copy)]
pub(crate) struct Link {
    pub(crate) previous: Option<u32>,
    pub(crate) next: Option<u32>,
}

/// The first and the last item of a chain, none where it is empty.
#[derive(Clone, Copy)]
pub(crate) struct Ends {
    pub(crate) first: Option<u32>,
    pub(crate) last: Option<u32>,
}

/// Lets `next` follow the item `at`, or come first in the chain where there is no item before it.
fn set_next(items: &mut [Link], ends: &mut Ends, at: Option<u32>, next: Option<u32>)
    requires { Within items.old at }
    ensures items { items.new ≡ next_set items.old at next }
    ensures ends { ends.new ≡ first_set ends.old at next }
{
    match at {
        Some(at) => {
            let previous = items[at as usize].previous;
            items[at as usize] = Link { previous, next };
        }
        None => ends.first = next,
    }
}

/// Lets `previous` stand before the item `at`, or come last in the chain where there is no item after it.
fn set_previous(items: &mut [Link], ends: &mut Ends, at: Option<u32>, previous: Option<u32>)
    requires { Within items.old at }
    ensures items { items.new ≡ previous_set items.old at previous }
    ensures ends { ends.new ≡ last_set ends.old at previous }
{
    match at {
        Some(at) => {
            let next = items[at as usize].next;
            items[at as usize] = Link { previous, next };
        }
        None => ends.last = previous,
    }
}

/// Takes an item out of the chain with these ends: its neighbours become neighbours.
pub(crate) fn unlink(items: &mut [Link], ends: &mut Ends, index: u32)
    requires within { index < length items.old }
    requires previous { Within items.old (link_at items.old index).previous }
    requires next { Within items.old (link_at items.old index).next }
    ensures items { items.new ≡ unlinked_items items.old (link_at items.old index) }
    ensures ends { ends.new ≡ unlinked_ends ends.old (link_at items.old index) }
{
    let link = items[index as usize];
    set_next(items, ends, link.previous, link.next);
    set_previous(items, ends, link.next, link.previous);
}

/// Puts an item into the chain with these ends, between the neighbours that are given.
pub(crate) fn insert(items: &mut [Link], ends: &mut Ends, index: u32, link: Link)
    requires within { index < length items.old }
    requires previous { Within items.old link.previous }
    requires next { Within items.old link.next }
    ensures items { items.new ≡ inserted_items items.old index link }
    ensures ends { ends.new ≡ inserted_ends ends.old index link }
{
    items[index as usize] = link;
    set_next(items, ends, link.previous, Some(index));
    set_previous(items, ends, link.next, Some(index));
}
