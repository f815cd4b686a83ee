// The benches of a run, of which it uses the first.
ghost use Rattle.std.specs.Prelude.{◌≡◌, ◌<◌, ◌∷◌, vec_len, vec_capacity};

/// Takes the first of some benches. Its place is kept free.
pub fn take_first<B>(benches: &mut Vec<B>) -> B
    requires some { 0 < vec_len benches.old }
    ensures first { benches.old.items ≡ result ∷ benches.new.items }
    ensures room { vec_len benches.new < vec_capacity benches.new }
{
    benches.remove(0)
}

/// Puts a bench in front of the others, for which there is room.
pub fn put_first<B>(benches: &mut Vec<B>, bench: B)
    requires room { vec_len benches.old < vec_capacity benches.old }
    ensures first { benches.new.items ≡ bench ∷ benches.old.items }
{
    benches.push_reserved(bench);
    benches.rotate_right(1);
}
