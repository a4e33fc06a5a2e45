//! Laws of rows of points. Each is a function without parameters whose clauses are the law.

ghost use Rattle.gw_shards.specs.Laws.{ShardsJoin};

/// The rows of a point's runs from one number to another, and then those from there on, are those of all.
pub fn shards_join()
    ensures { ShardsJoin }
{}
