//! The parts of a file's name.

ghost use Rattle.std.specs.Prelude.{◌≡◌, ◌-◌, ◌==◌, ◌≤◌, not, length};
ghost use Rattle.std.specs.List.{suffix_len};
ghost use Rattle.fab_paths.specs.Paths.{last_segment, stem, without_ending};

/// Where the bytes after the last one of this value begin; 0 where there is none.
fn place_after_last(bytes: &[u8], sought: u8) -> usize
    ensures place { result ≡ length bytes.now - suffix_len (λ byte. not (byte == sought)) bytes.now }
    ensures within { result ≤ length bytes.now }
{
    let mut place = bytes.len();
    while 0 < place {
        if bytes[place - 1] == sought {
            return place;
        }
        place -= 1;
    }
    place
}

fn last_segment(path: &[u8]) -> &[u8]
    ensures { result.now ≡ last_segment path.now }
{
    let (_, segment) = path.split_at(place_after_last(path, b'/'));
    segment
}

fn without_ending(segment: &[u8]) -> &[u8]
    ensures { result.now ≡ without_ending segment.now }
{
    if !segment.contains(&b'.') {
        return segment;
    }
    let (front, _) = segment.split_at(place_after_last(segment, b'.').saturating_sub(1));
    front
}

/// The last segment of a path without its ending, which begins at its last dot: `demo` of `lists/demo.list`. It may be empty.
#[tactic(auto, unfolding(crate::specs::Paths::stem))]
pub fn stem(path: &[u8]) -> &[u8]
    ensures { result.now ≡ stem path.now }
{
    without_ending(last_segment(path))
}
