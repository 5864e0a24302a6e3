//! The parts of a space.
use sw_template::Body;

/// The parts of a space of one template, each the list of its classes in order.
pub trait Walk {
    ghost use Rattle.std.specs.Prelude.{◌≡◌, ◌↔◌, ◌<◌, ◌≤◌, ◌^◌, ◌+◌, ℕ, List, Some, IfSome, IsTrue, length, slice_get, Contains, option_map};
    ghost use Rattle.sw_meaning.specs.declared.template.Template.{Template as Shape};
    ghost use Rattle.sw_walk.specs.Parts.{part_at, IsClass};

    ghost template: { Self → Shape };

    ghost part_lists: { Self → List (List (List ℕ)) };

    /// The number of parts.
    fn parts(&self) -> u64
        ensures { result ≡ length (part_lists self.now) };

    /// The first class of a part, if it has one.
    fn first_of(&self, part: u64) -> Option<Body>
        requires { part < length (part_lists self.now) }
        ensures cubes { option_map (λ b. b.cubes) result ≡ slice_get (part_at (part_lists self.now) part) 0 }
        ensures template { IfSome result (λ b. b.template ≡ 0) }
        ensures few { length (part_at (part_lists self.now) part) ≤ 2 ^ 32 };

    /// The class after this one in its part, if there is one.
    fn next_of(&self, part: u64, body: &Body) -> Option<Body>
        requires part { part < length (part_lists self.now) }
        requires is { Contains (part_at (part_lists self.now) part) body.now.cubes }
        ensures cubes { (i : ℕ) → slice_get (part_at (part_lists self.now) part) i ≡ Some body.now.cubes → option_map (λ b. b.cubes) result ≡ slice_get (part_at (part_lists self.now) part) (i + 1) }
        ensures template { IfSome result (λ b. b.template ≡ 0) };

    /// Whether a body is a class of the space.
    fn is_class(&self, body: &Body) -> bool
        ensures { IsTrue result ↔ IsClass (part_lists self.now) body.now };
}
