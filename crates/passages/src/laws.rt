//! The laws of points that are passed. They hold for points, ways and remains of a crash of any type.

ghost use Rattle.std.specs.Prelude.{ℕ};
ghost use Rattle.passages.specs.Laws.{LinksGoOn, MomentsRise, PassedShowGoodOnes, PassedShowSome, PassedGoInARow, PassedStay, PassedToldOtherwise, PointsTellSince, AnyMayBeOnItsWay};

/// What a crash may leave at each moment, now and once later calls were made; which point it shows; and which points are good ones.
pub trait Passage<Point, Left> {
    ghost left: { ℕ → Left → Type 0 };

    ghost later: { ℕ → Left → Type 0 };

    ghost shows: { Point → Left → Type 0 };

    ghost is_good: { Point → Type 0 };
}

/// When something may come after what came before it, and what it leaves to those after it.
pub trait Links<Base, Next> {
    ghost link: { Base → Next → Type 0 };

    ghost after: { Base → Next → Base };
}

/// Points are passed in a row, at moments that rise. Each moment shows one of them, and good ones where each is good.
pub fn points_are_passed<Point, Way, Left, T: Passage<Point, Left>>()
    ensures row { PassedGoInARow Point Way Left T.left T.shows }
    ensures seen { PassedShowSome Point Way Left T.left T.shows }
    ensures rise { MomentsRise Point Way Left T.left T.shows }
    ensures good { PassedShowGoodOnes Point Way Left T.left T.shows T.is_good }
    ensures on_its_way { AnyMayBeOnItsWay Point Way Left T.left T.shows }
{}

/// Points tell what was so at a moment and since then.
pub fn points_tell_since<Point, Way, Left, T: Passage<Point, Left>>()
    ensures { PointsTellSince Point Way Left T.left T.shows }
{}

/// Points that are passed are passed as others that tell of them.
pub fn points_are_told_otherwise<
    Point,
    Way,
    Told,
    ToldWay,
    Left,
    T: Passage<Point, Left>,
    U: Passage<Told, Left>,
>()
    ensures { PassedToldOtherwise Point Way Told ToldWay Left T.left T.shows T.is_good U.shows }
{}

/// Points stay passed while later calls keep the past.
pub fn points_stay_passed<Point, Way, Left, T: Passage<Point, Left>>()
    ensures { PassedStay Point Way Left T.left T.later T.shows }
{}

/// What comes after others goes on in a row.
pub fn links_go_on<Base, Next, T: Links<Base, Next>>()
    ensures { LinksGoOn Base Next T.link T.after }
{}
