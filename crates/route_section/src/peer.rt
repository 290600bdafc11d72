// A peer's routes, and what is measured of them.
ghost use Rattle.std.specs.Prelude.{◌≡◌, ◌≤◌, false, length};
ghost use Rattle.limits.specs.Limits.{rust_limits};
ghost use Rattle.route_set.specs.Routes.{routes_of};
ghost use Rattle.route_section.specs.Section.{section_in};

// The block of a peer's Record-Route lines, no longer than a text may be: how many routes it gives, and how many bytes their section has, in either order.
#[derive(Clone, Copy)]
pub struct PeerRoutes<'a> {
    pub block: &'a [u8],
    pub count: usize,
    pub size: usize,
    pub ghost short: { length block.now ≤ 8192 },
    pub ghost sized: { size ≡ length (section_in false (routes_of rust_limits block.now)) },
}
