ghost use Rattle.std.specs.Prelude.{◌≡◌, ◌++◌, ◌∷◌, option_map, MatchOption};
ghost use Rattle.lang_base.specs.Regions.{is_star, is_local, elem_within, covers_elems};
ghost use Rattle.region_paths.specs.Segments.{NoStar, begins_within, following, after_first, ends_within};

use lang_base::Elem;

fn is_star(elem: Elem) -> bool
    ensures { result ≡ is_star elem }
{
    matches!(elem, Elem::Star)
}

fn is_local(elem: Elem) -> bool
    ensures { result ≡ is_local elem }
{
    matches!(elem, Elem::Local(_, _))
}

fn elem_within(inner: Elem, outer: Elem) -> bool
    ensures { result ≡ elem_within inner outer }
{
    inner == outer || (outer == Elem::Any && matches!(inner, Elem::At(_) | Elem::Any))
}

/// What comes before the first `*` and what after it.
fn at_star(path: &[Elem]) -> Option<(&[Elem], &[Elem])>
    ensures { MatchOption result (NoStar path.now) (λ parts. NoStar parts.0.now × (path.now ≡ parts.0.now ++ Elem.Star ∷ parts.1.now)) }
{
    for at in 0..path.len() {
        if is_star(path[at]) {
            return Some((&path[..at], &path[at + 1..]));
        }
    }
    None
}

/// Whether the list begins with elements that lie one by one in those of the segment.
fn begins(segment: &[Elem], list: &[Elem]) -> bool
    ensures { result ≡ begins_within segment.now list.now }
{
    if list.len() < segment.len() {
        return false;
    }
    for i in 0..segment.len() {
        if !elem_within(list[i], segment[i]) {
            return false;
        }
    }
    true
}

/// What is left of the list after the segment, where it begins with it.
fn following<'a>(segment: &[Elem], list: &'a [Elem]) -> Option<&'a [Elem]>
    ensures { option_map (λ rest. rest.now) result ≡ following segment.now list.now }
{
    if begins(segment, list) {
        Some(&list[segment.len()..])
    } else {
        None
    }
}

/// What is left after the first place of the list where the segment fits, if a `*` reaches it.
fn skip_to<'a>(segment: &[Elem], list: &'a [Elem]) -> Option<&'a [Elem]>
    ensures { option_map (λ rest. rest.now) result ≡ after_first segment.now list.now }
{
    for at in 0..list.len() {
        if let Some(rest) = following(segment, &list[at..]) {
            return Some(rest);
        }
        if is_local(list[at]) {
            return None;
        }
    }
    following(segment, &list[list.len()..])
}

/// Whether the segment fits at the end of the list, and a `*` reaches its place.
fn ends(segment: &[Elem], list: &[Elem]) -> bool
    ensures { result ≡ ends_within segment.now list.now }
{
    for at in 0..list.len() {
        if list.len() - at == segment.len() {
            return begins(segment, &list[at..]);
        }
        if is_local(list[at]) {
            return false;
        }
    }
    segment.is_empty()
}

/// Whether the elements of one path lie in those of another. Each `*` takes up as few elements as the
/// segment after it allows: taking up more never helps what follows.
pub fn covers(outer: &[Elem], inner: &[Elem]) -> bool
    ensures { result ≡ covers_elems outer.now inner.now }
{
    let Some((first, mut pattern)) = at_star(outer) else {
        return outer.len() == inner.len() && begins(outer, inner);
    };
    let Some(mut list) = following(first, inner) else {
        return false;
    };
    while let Some((segment, after)) = at_star(pattern) {
        let Some(rest) = skip_to(segment, list) else {
            return false;
        };
        pattern = after;
        list = rest;
    }
    ends(pattern, list)
}
