// The function does nothing: what it promises is proved.

ghost use Rattle.heap_laws.specs.Laws as laws;

/// Laws of lists, sets and maps.
pub fn laws_of_collections()
    ensures frame { laws.OnlyItsThing }
    ensures guarded { laws.GuardedStays }
    ensures unguarded { laws.UnguardedIsDone }
    ensures put { laws.PutKeepsPlaces }
    ensures found { laws.PutIsFound }
    ensures removed { laws.RemovalKeepsOrder }
    ensures added { laws.AddedWhereNew }
    ensures sorted { laws.SortRises }
    ensures same { laws.SortKeepsItems }
{}
