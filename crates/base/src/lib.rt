// Lists and searches: definitions and laws, and one way to copy into a buffer.
#![tactic(auto)]

mod searches;

ghost use Rattle.std.specs.Prelude.{◌≡◌, ◌+◌, ◌≤◌, length};
ghost use Rattle.std.proofs.lemmas.List.Edits.{sets};

pub use searches::partition_point;

// Copies items to the place `at` of a buffer.
pub fn copy_at<T: Copy>(buffer: &mut [T], at: usize, items: &[T])
    requires { at + length items.now ≤ length buffer.old }
    ensures { buffer.new ≡ sets buffer.old at items.now }
{
    // Kept: not `copy_from_slice`, for which an archive for C would need `memmove` from outside.
    for i in 0..items.len() {
        buffer[at + i] = items[i];
    }
}
