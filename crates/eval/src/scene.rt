// What stays the same while a query is worked out: where it begins in the request's bytes, the slots of the tables and of what the
// query writes out, and how deep data nest at most.
#[derive(Clone, Copy)]
pub struct Scene {
    pub query_at: usize,
    pub tables: usize,
    pub count: usize,
    pub literals: usize,
    pub deep: usize,
}

// That, and what is only read besides memory: the request's bytes, the guide to the query, and the numbers of what the query writes out.
#[derive(Clone, Copy)]
pub struct Lent<'a> {
    pub scene: Scene,
    pub bytes: &'a [u8],
    pub guide: &'a [u32],
    pub literals: &'a [u32],
}
