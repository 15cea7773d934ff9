//! The networks of fewest splitters that are known of up to eight inputs and outputs, found by exhaustive search and
//! by looking. Nothing rests on what is said of them here: each is decided before it is given.

/// A line a network, in the order of inputs, outputs and splitters: the names of properties that it has, its numbers of
/// inputs, outputs and splitters, and behind commas an input or a splitter and where its edges end. Behind an edge `<`
/// says that the splitter at its end takes from it first, and `>` that the one at its start gives to it first.
pub const KNOWN: &str = "\
balanced,drawn-evenly,unlimited,full,fair,drawn-fairly 1 1 0, i0 o0
balanced,drawn-evenly,unlimited,full,fair,drawn-fairly 1 2 1, i0 s0, s0 o0 o1
balanced,drawn-evenly,full,drawn-fairly 1 3 3, i0 s0, s0 s1 s2, s1 s0 o0, s2 o1 o2
balanced,drawn-evenly,unlimited,full,drawn-fairly 1 3 3, i0 s0<, s0 s1 s2, s1 s0 o0, s2 o1 o2
balanced,drawn-evenly,unlimited,full,drawn-fairly 1 3 4, i0 s0, s0 s1 s2, s1 o0 o1, s2 o2 s3, s3 s1 s2
balanced,drawn-evenly,unlimited,full,fair,drawn-fairly 1 3 8, i0 s3, s0 s2 o1>, s1 o2, s2 s6 s4, s3 s4 s6<, \
    s4 s0 s5, s5 s7 o0>, s6 s1 s3, s7 s1 s0
balanced,drawn-evenly,unlimited,full,drawn-fairly 1 4 3, i0 s0, s1 o0 o1, s2 o2 o3, s0 s1 s2
balanced,drawn-evenly,full,drawn-fairly 1 5 7, i0 s0, s0 s1 s2, s1 s2 s3, s2 s4 s5, s3 o0 o1, s4 o2 o3, \
    s5 o4 s6, s6 s1 s3
balanced,drawn-evenly,unlimited,full,drawn-fairly 1 5 7, i0 s0, s0 s1< s2, s1 s2 s3, s2 s4 s5, s3 o0 o1, \
    s4 o2 o3, s5 o4 s6, s6 s1 s3
balanced,drawn-evenly,unlimited,full,drawn-fairly 1 5 8, i0 s0, s0 s1 s2, s1 s3 s4, s2 s5 s6, s3 s6 o0, \
    s4 o1 o2, s5 o3 o4, s6 s2 s7, s7 s3 s4
balanced,drawn-evenly,full,drawn-fairly 1 6 6, i0 s0, s0 s1 s2, s1 s0 s3, s2 s4 s5, s3 o0 o1, s4 o2 o3, s5 o4 o5
balanced,drawn-evenly,unlimited,full,drawn-fairly 1 6 6, i0 s0<, s0 s1 s2, s1 s0 s3, s2 s4 s5, s3 o0 o1, \
    s4 o2 o3, s5 o4 o5
balanced,drawn-evenly,unlimited,full,drawn-fairly 1 6 7, i0 s0, s0 s1 s2, s1 s3 s4, s2 s5 s6, s3 s1 s2, \
    s4 o0 o1, s5 o2 o3, s6 o4 o5
balanced,drawn-evenly,full,drawn-fairly 1 7 7, i0 s0, s0 s1 s2, s1 s3 s4, s2 s5 s6, s3 s0 o0, s4 o1 o2, \
    s5 o3 o4, s6 o5 o6
balanced,drawn-evenly,unlimited,full,drawn-fairly 1 7 7, i0 s0<, s0 s1 s2, s1 s3 s4, s2 s5 s6, s3 s0 o0, \
    s4 o1 o2, s5 o3 o4, s6 o5 o6
balanced,drawn-evenly,unlimited,full,drawn-fairly 1 7 9, i0 s0, s0 s1 s2, s1 s3 s4, s2 s5 s6, s3 o0 o1, \
    s4 o2 s7, s5 o3 o4, s6 o5 o6, s7 s2 s8, s8 s3 s4
balanced,drawn-evenly,unlimited,full,drawn-fairly 1 8 7, i0 s0, s0 s1 s2, s1 s3 s4, s2 s5 s6, s3 o0 o1, \
    s4 o2 o3, s5 o4 o5, s6 o6 o7
balanced,drawn-evenly,unlimited,full,fair,drawn-fairly 2 1 1, i0 s0, i1 s0, s0 o0
balanced,drawn-evenly,unlimited,full,fair,drawn-fairly 2 2 1, i0 s0, i1 s0, s0 o0 o1
balanced,full 2 3 4, i0 s0, i1 s1, s0 s2 s3, s1 s2 s3, s2 s0 o0, s3 o1 o2
balanced,drawn-evenly,full,drawn-fairly 2 3 4, i0 s0, i1 s0, s0 s1 s2, s1 o0 o1, s2 o2 s3, s3 s1 s2
balanced,drawn-evenly,unlimited,full,drawn-fairly 2 3 4, i0 s0, i1 s0, s0 s1< s2<, s1 o0 o1, s2 o2 s3, s3 s1 s2
balanced,unlimited,full 2 3 5, i0 s0, i1 s1, s0 s2 s3, s1 s0 s4, s2 s4 o0, s3 o1 o2, s4 s2 s3
balanced,drawn-evenly,unlimited,full,drawn-fairly 2 3 6, i0 s0, i1 s1, s0 s2 s3, s1 s2 s3, s2 o0 s4, s3 s4 s5, \
    s4 o1 o2, s5 s0 s1
balanced,drawn-evenly,unlimited,full,fair,drawn-fairly 2 3 10, i0 s4<, i1 s5<, s0 s9 s8, s1 s5 o1>, s2 o0, \
    s3 s4 o2>, s4 s7 s6, s5 s7 s6, s6 s3 s1, s7 s0 s2, s8 s0 s2, s9 s1 s3
balanced,drawn-evenly,full,drawn-fairly 2 4 3, i0 s0, i1 s0, s1 o0 o1, s2 o2 o3, s0 s1 s2
balanced,drawn-evenly,unlimited,full,drawn-fairly 2 4 4, i0 s0, i1 s1, s0 s2 s3, s1 s2 s3, s2 o0 o1, s3 o2 o3
balanced,full 2 5 7, i0 s0, i1 s1, s0 s2 s3, s1 s2 s3, s2 s0 s4, s3 s5 s6, s4 s1 o0, s5 o1 o2, s6 o3 o4
balanced,drawn-evenly,full,drawn-fairly 2 5 7, i0 s0, i1 s0, s0 s1 s2, s1 s2 s3, s2 s4 s5, s3 o0 o1, s4 o2 o3, \
    s5 o4 s6, s6 s1 s3
balanced,drawn-evenly,unlimited,full,drawn-fairly 2 5 11, s0 o0 s8, s1 o1 o2, s2 o3 s7, s3 s4 o4, s4 s0 s3, \
    s5 s0 s3, s6 s1 s2, s7 s1 s2, s8 s7 s4, s9 s5 s6, s10 s5 s6, i0 s10, i1 s9
balanced,drawn-evenly,full,drawn-fairly 2 6 7, i0 s0, i1 s0, s0 s1 s2, s1 s3 s4, s2 s5 s6, s3 s1 s2, s4 o0 o1, \
    s5 o2 o3, s6 o4 o5
balanced,drawn-evenly,unlimited,full,drawn-fairly 2 6 11, i0 s0, i1 s1, s0 s2 s3, s2 s4 s5, s3 s6 s7, s7 s2 s3, \
    s1 s8 s9, s8 s4 s5, s9 s6 s10, s10 s8 s9, s4 o0 o1, s5 o2 o3, s6 o4 o5
balanced,drawn-evenly,full,drawn-fairly 2 7 8, i0 s0, i1 s0, s0 s1 s2, s1 s3 s4, s2 s5 s6, s3 o0 o1, s4 o2 o3, \
    s5 o4 o5, s6 o6 s7, s7 s1 s2
balanced,drawn-evenly,unlimited,full,drawn-fairly 2 7 14, i0 s0, i1 s0, s0 s1 s2, s3 s4 s5, s1 s6 s7, s4 s6 s7, \
    s6 s8 s9, s7 s10 s11, s2 s12 s13, s5 s12 s13, s12 s8 s9, s13 s10 s11, s8 o0 o1, s9 o2 o3, s10 o4 o5, s11 o6 s3
balanced,drawn-evenly,full,drawn-fairly 2 8 7, i0 s0, i1 s0, s0 s1 s2, s1 s3 s4, s2 s5 s6, s3 o0 o1, s4 o2 o3, \
    s5 o4 o5, s6 o6 o7
balanced,drawn-evenly,unlimited,full,drawn-fairly 2 8 10, i0 s0, i1 s1, s0 s2 s3, s1 s4 s5, s2 s6 s7, s4 s6 s7, \
    s6 o0 o1, s7 o2 o3, s3 s8 s9, s5 s8 s9, s8 o4 o5, s9 o6 o7
balanced,unlimited,full,fair 3 1 2, i0 s0, i1 s0, i2 s1, s0 s1, s1 o0
balanced,drawn-evenly,full,fair 3 1 3, i0 s0, i1 s1, i2 s1, s2 o0, s0 s2, s1 s2, s2 s0
balanced,drawn-evenly,unlimited,full,fair 3 1 4, i0 s0, i1 s0, i2 s1, s2 o0, s0 s2, s1 s2, s3 s1, s0 s3, s1 s3
balanced,drawn-evenly,unlimited,full,fair,drawn-fairly 3 1 8, s3 o0, s2 s0, i1 s0<, i2 s1, s6 s2, s4 s2 s3, \
    s6 s3>, s0 s4, s5 s4, s7 s5, i0 s5<, s1 s6, s3 s6, s1 s7, s0 s7
balanced,full,fair 3 2 2, i0 s0, i1 s0, i2 s1, s0 s1, s1 o0 o1
balanced,drawn-evenly,full,fair 3 2 4, i0 s0, i1 s0, i2 s1, s2 o0 o1, s0 s2, s1 s2, s3 s1, s0 s3, s1 s3
balanced,unlimited,full,fair 3 2 4, i0 s0, i1 s0, i2 s1, s0 s2 s3, s1 s2 s3, s2 o0, s3 o1
balanced,drawn-evenly,unlimited,full,fair 3 2 6, i0 s0, i1 s1, i2 s1, s2 o0, s3 o1, s0 s2, s4 s2, s0 s3, s4 s3, \
    s1 s0 s4, s5 s4, s2 s5, s3 s5
balanced,drawn-evenly,unlimited,full,fair,drawn-fairly 3 2 10, s4 o0>, s5 o1>, s9 s0, s8 s0, s5 s1, i1 s1<, \
    i0 s2, s4 s3, i2 s3<, s7 s4, s6 s4, s7 s5, s6 s5, s3 s6, s1 s6, s0 s7, s2 s7, s0 s8, s2 s8, s1 s9, s3 s9
balanced,drawn-evenly,full 3 3 4, i0 s0, i1 s0, i2 s1, s0 s2 s3, s1 s2 s3, s2 s1 o0, s3 o1 o2
balanced,drawn-evenly,unlimited,full 3 3 6, i0 s0, i1 s0, i2 s1, s0 s1 s2, s1 s2 s3, s2 s4 s5, s3 s4 s5, \
    s4 s3 o0, s5 o1 o2
balanced,drawn-evenly,unlimited,full,fair,drawn-fairly 3 3 11, i0 s4, i1 s5<, i2 s6<, s0 s10 s9, s1 s6 o1>, \
    s2 o0, s3 o2> s5, s4 s10 s9, s5 s8 s7, s6 s8 s7, s7 s3 s1, s8 s0 s2, s9 s0 s2, s10 s1 s3
balanced,full 3 4 4, i0 s0, i1 s0, i2 s1, s0 s2 s3, s1 s2 s3, s2 o0 o1, s3 o2 o3
balanced,unlimited,full 3 4 6, i0 s0, i1 s0, i2 s1, s0 s2 s3, s1 s2 s3, s2 s4 s5, s3 s4 s5, s4 o0 o1, s5 o2 o3
balanced,drawn-evenly,full 3 4 7, i0 s0, i1 s0, i2 s1, s0 s2 s3, s1 s2 s3, s2 s1 s4, s3 s5 s6, s4 s5 s6, \
    s5 o0 o1, s6 o2 o3
balanced,drawn-evenly,unlimited,full 3 4 9, s0 o0 o1, s1 o2 o3, s2 s1 s0, s3 s1 s0, s4 s2 s3, s5 s4 s2, \
    s6 s8 s5, s7 s5 s8, s8 s6 s3, i0 s7, i1 s7, i2 s6
balanced,full 3 5 10, i0 s0, i1 s0, i2 s1, s0 s2 s3, s1 s2 s3, s4 s5 s6, s2 s7 s8, s5 s7 s8, s7 o0 o1, s8 o2 o3, \
    s3 s9 s4, s6 s9 s4, s9 o4 s1
balanced,drawn-evenly,full 3 5 10, i0 s0, i1 s0, i2 s1, s0 s2 s3, s1 s2 s3, s2 s1 s4, s3 s5 s6, s4 s5 o0, \
    s5 s7 s8, s6 o1 o2, s7 s8 s9, s8 o3 o4, s9 s4 s6
balanced,unlimited,full 3 5 15, i0 s0, i1 s0, i2 s1, s0 s2 s3, s1 s4 s5, s2 s6 s7, s4 s2 s8, s6 s8 s9, \
    s7 s10 s11, s8 s6 s7, s3 s12 s13, s5 s3 s14, s12 s14 s9, s13 s10 s11, s14 s12 s13, s9 o0 o1, s10 o2 o3, s11 o4 s1
balanced,drawn-evenly,unlimited,full 3 5 17, i0 s0, i1 s0, i2 s1, s0 s2 s3, s1 s4 s5, s2 s6 s7, s4 s6 s7, \
    s6 s8 s9, s7 s9 s10, s9 s11 s12, s10 s2 s4, s3 s13 s14, s5 s13 s14, s13 s8 s15, s14 s15 s16, s15 s11 s12, \
    s16 s3 s5, s8 o0 o1, s11 o2 o3, s12 o4 s1
balanced,drawn-evenly,full 3 6 7, i0 s0, i1 s1, i2 s1, s2 o0 o1, s3 o2 o3, s4 o4 o5, s5 s2 s3, s6 s4, s0 s5, \
    s1 s5, s0 s6, s1 s6, s6 s0
balanced,drawn-evenly,unlimited,full 3 6 15, i0 s0, i1 s1, i2 s2, s0 s3 s4, s1 s3 s4, s2 s5 s6, s3 s5 s7, \
    s5 s7 s8, s7 s9 s10, s8 s9 s10, s9 s8 o0, s10 o1 o2, s4 s6 s11, s6 s11 s12, s11 s13 s14, s12 s13 s14, \
    s13 s12 o3, s14 o4 o5
balanced,full 3 7 8, i0 s0, i1 s0, i2 s1, s0 s2 s3, s1 s2 s3, s2 s4 s5, s3 s6 s7, s4 s1 o0, s5 o1 o2, s6 o3 o4, \
    s7 o5 o6
balanced,drawn-evenly,full 3 7 11, i0 s0, i1 s1, i2 s1, s2 s3, s0 s4, s1 s4, s0 s2, s1 s2, s2 s0, s4 s5 s6, \
    s3 s5 s6, s5 s7 s8, s6 s9 s10, s7 s3 o0, s8 o1 o2, s9 o3 o4, s10 o5 o6
balanced,drawn-evenly,unlimited,full 3 7 14, i0 s0, i1 s0, i2 s1, s0 s2 s3, s1 s4 s5, s2 s6 s7, s4 s6 s7, \
    s6 s8 s9, s7 s10 s11, s3 s12 s13, s5 s12 s13, s12 s8 s9, s13 s10 s11, s11 s1, s8 o0 o1, s9 o2 o3, s10 o4 o5, \
    s11 o6
balanced,full 3 8 8, i0 s0, i1 s0, i2 s1, s0 s2 s3, s1 s2 s3, s2 s4 s5, s3 s6 s7, s4 o0 o1, s5 o2 o3, s6 o4 o5, \
    s7 o6 o7
balanced,drawn-evenly,full 3 8 11, i0 s0, i1 s0, i2 s1, s0 s2 s3, s1 s2 s3, s2 s1 s4, s3 s5 s6, s4 s5 s6, \
    s5 s7 s8, s6 s9 s10, s7 o0 o1, s8 o2 o3, s9 o4 o5, s10 o6 o7
balanced,unlimited,full 3 8 14, i0 s0, i1 s0, i2 s1, s0 s2 s3, s1 s4 s5, s2 s6 s7, s4 s6 s7, s6 s8 s9, \
    s7 s10 s11, s3 s12 s13, s5 s12 s13, s12 s8 s9, s13 s10 s11, s8 o0 o1, s9 o2 o3, s10 o4 o5, s11 o6 o7
balanced,drawn-evenly,unlimited,full 3 8 17, i0 s0, i1 s1, i2 s1, s3 s5 s2, s4 s6, s0 s3, s1 s3, s0 s4, s1 s4, \
    s4 s0, s2 s7 s8, s5 s9 s10, s7 s9 s10, s9 s11 s12, s10 s13 s14, s6 s15 s16, s8 s15 s16, s15 s11 s12, \
    s16 s13 s14, s11 o0 o1, s12 o2 o3, s13 o4 o5, s14 o6 o7
balanced,unlimited,full,fair 4 1 3, i0 s0, i1 s0, i2 s1, i3 s2, s0 s1, s1 s2, s2 o0
balanced,drawn-evenly,unlimited,full,fair 4 1 3, i0 s0, i1 s0, i2 s1, i3 s1, s0 s2, s1 s2, s2 o0
balanced,full,fair 4 2 3, i0 s0, i1 s0, i2 s1, i3 s2, s0 s2, s1 o0 o1, s2 s1
balanced,drawn-evenly,full,fair 4 2 3, i0 s0, i1 s0, i2 s1, i3 s1, s0 s2, s1 s2, s2 o0 o1
balanced,drawn-evenly,unlimited,full,fair 4 2 4, i0 s0, i1 s0, i2 s1, i3 s1, s2 o0, s3 o1, s0 s2, s1 s2, s0 s3, \
    s1 s3
balanced,full 4 3 5, i0 s0, i1 s0, i2 s1, i3 s2, s0 s1, s1 s3 s4, s2 s3 s4, s3 s2 o0, s4 o1 o2
balanced,drawn-evenly,full 4 3 7, i0 s0, i1 s0, i2 s1, i3 s1, s2 o0 o1, s3 o2, s4 s2, s5 s2, s4 s3, s5 s3, \
    s3 s4, s6 s4, s0 s5, s1 s5, s0 s6, s1 s6
balanced,drawn-evenly,unlimited,full 4 3 9, i0 s0, i1 s0, i2 s1, i3 s1, s1 s2, s0 s2, s1 s3, s0 s3, s2 s4, \
    s3 s4, s4 s5, s2 s5, s8 s6, s5 s6 s7, s8 s7, s6 s8, s3 s8, s7 o0 o1, s6 o2
balanced,drawn-evenly,full 4 4 4, i0 s0, i1 s0, i2 s1, i3 s1, s0 s2 s3, s1 s2 s3, s2 o0 o1, s3 o2 o3
balanced,drawn-evenly,unlimited,full 4 4 6, i0 s0, i1 s0, i2 s1, i3 s1, s0 s2 s3, s1 s2 s3, s2 s4 s5, s3 s4 s5, \
    s4 o0 o1, s5 o2 o3
balanced,full 4 5 11, i0 s0, i1 s0, i2 s1, i3 s1, s0 s2 s3, s1 s2 s3, s4 s5 s6, s7 s5 s6, s2 s8 s9, s5 s8 s9, \
    s8 o0 o1, s9 o2 o3, s3 s10 s7, s6 s10 s7, s10 o4 s4
balanced,drawn-evenly,full 4 5 11, s0 o0 o1, s1 s5 s2, s2 s0 s4, s3 s1 o2, s4 o3 o4, s5 s6 s3, s6 s5 s2, \
    s7 s3 s4, s8 s10 s7, s9 s10 s7, s10 s6 s0, i0 s9, i1 s8, i2 s8, i3 s9
balanced,drawn-evenly,unlimited,full 4 5 18, s0 s13 o0, s1 o1 o2, s2 o3 o4, s3 s11 s0, s4 s1 s2, s5 s12 s0, \
    s6 s1 s2, s7 s3 s4, s8 s3 s4, s9 s5 s6, s10 s5 s6, s11 s7 s8, s12 s9 s10, s13 s11 s12, s14 s7 s10, s15 s9 s8, \
    s16 s14 s15, s17 s14 s15, i0 s16, i1 s16, i2 s17, i3 s17
balanced,full 4 6 10, i0 s0, i1 s0, i2 s1, i3 s1, s0 s2 s3, s1 s2 s3, s4 s5 s6, s2 s7 s8, s5 s7 s8, s7 o0 o1, \
    s8 o2 o3, s3 s9 s4, s6 s9 s4, s9 o4 o5
balanced,drawn-evenly,full 4 6 10, i0 s0, i1 s0, i2 s1, i3 s1, s0 s2 s3, s1 s2 s3, s2 s4 s5, s4 o0 o1, s5 o2 s6, \
    s6 s4 s5, s3 s7 s8, s7 o3 o4, s8 o5 s9, s9 s7 s8
balanced,unlimited,full 4 6 15, i0 s0, i1 s0, i2 s1, i3 s1, s0 s2 s3, s1 s4 s5, s2 s6 s7, s4 s2 s8, s6 s8 s9, \
    s7 s10 s11, s8 s6 s7, s3 s12 s13, s5 s3 s14, s12 s14 s9, s13 s10 s11, s14 s12 s13, s9 o0 o1, s10 o2 o3, s11 o4 o5
balanced,drawn-evenly,unlimited,full 4 6 17, i0 s0, i1 s0, i2 s1, i3 s1, s0 s2 s3, s1 s4 s5, s2 s6 s7, s4 s6 s7, \
    s6 s8 s9, s7 s9 s10, s9 s11 s12, s10 s2 s4, s3 s13 s14, s5 s13 s14, s13 s8 s15, s14 s15 s16, s15 s11 s12, \
    s16 s3 s5, s8 o0 o1, s11 o2 o3, s12 o4 o5
balanced,full 4 7 11, i0 s0, i1 s0, i2 s1, i3 s1, s0 s2 s3, s1 s2 s3, s4 s5 s6, s2 s7 s8, s5 s7 s8, s7 o0 o1, \
    s8 o2 o3, s3 s9 s10, s6 s9 s10, s9 o4 o5, s10 o6 s4
balanced,drawn-evenly,full 4 7 11, s0 s7 o0, s1 o1 o2, s2 o3 o4, s3 o5 o6, s4 s3 s2, s5 s0 s1, s6 s0 s2, \
    s7 s4 s5, s8 s3 s1, s9 s6 s8, s10 s6 s8, i0 s9, i1 s9, i2 s10, i3 s10
balanced,unlimited,full 4 7 19, i0 s0, i1 s0, i2 s1, i3 s1, s0 s2 s3, s1 s2 s3, s4 s5 s6, s2 s7 s8, s5 s7 s8, \
    s7 s9 s10, s8 s9 s10, s9 s11 s12, s10 s13 s14, s3 s15 s16, s6 s15 s16, s15 s17 s18, s16 s17 s18, s17 s11 s12, \
    s18 s13 s14, s11 o0 o1, s12 o2 o3, s13 o4 o5, s14 o6 s4
balanced,drawn-evenly,unlimited,full 4 7 19, s0 o0 o1, s1 o2 o3, s2 o4 o5, s3 o6 s14, s4 s0 s1, s5 s2 s3, \
    s6 s2 s3, s7 s0 s1, s8 s7 s5, s9 s7 s5, s10 s4 s6, s11 s4 s6, s12 s8 s9, s13 s10 s11, s14 s12 s13, s15 s8 s9, \
    s16 s10 s11, s17 s16 s15, s18 s15 s16, i0 s17, i1 s17, i2 s18, i3 s18
balanced,drawn-evenly,full 4 8 8, i0 s0, i1 s0, i2 s1, i3 s1, s0 s2 s3, s1 s2 s3, s2 s4 s5, s3 s6 s7, s4 o0 o1, \
    s5 o2 o3, s6 o4 o5, s7 o6 o7
balanced,drawn-evenly,unlimited,full 4 8 14, i0 s0, i1 s0, i2 s1, i3 s1, s0 s2 s3, s1 s4 s5, s2 s6 s7, s4 s6 s7, \
    s6 s8 s9, s7 s10 s11, s3 s12 s13, s5 s12 s13, s12 s8 s9, s13 s10 s11, s8 o0 o1, s9 o2 o3, s10 o4 o5, s11 o6 o7
balanced,unlimited,full,fair 5 1 4, i0 s0, i1 s0, i2 s1, i3 s2, i4 s3, s0 s1, s1 s2, s2 s3, s3 o0
balanced,drawn-evenly,full,fair 5 1 7, i0 s0, i1 s0, i2 s1, i3 s1, i4 s2, s3 o0, s4 s3, s5 s3 s4, s0 s4, s1 s5, \
    s2 s5, s6 s2, s4 s6, s0 s6
balanced,drawn-evenly,unlimited,full,fair 5 1 8, i0 s0, i1 s1, i2 s1, i3 s2, i4 s2, s3 o0, s4 s3, s5 s3, s0 s4, \
    s1 s4, s2 s5, s6 s5 s0, s5 s6, s7 s6, s0 s7, s1 s7
balanced,full,fair 5 2 4, i0 s0, i1 s0, i2 s1, i3 s2, i4 s3, s0 s2, s1 o0 o1, s2 s3, s3 s1
balanced,drawn-evenly,full,fair 5 2 7, i0 s0, i1 s0, i2 s1, i3 s1, i4 s2, s3 o0 o1, s4 s3, s5 s3 s4, s0 s4, \
    s1 s5, s2 s5, s6 s2, s4 s6, s0 s6
balanced,unlimited,full,fair 5 2 7, i0 s0, i1 s0, i2 s1, i3 s1, i4 s2, s3 s4, s5 s6, s0 s3, s1 s3, s0 s5, s1 s5, \
    s4 o0, s6 o1, s2 s6 s4
balanced,drawn-evenly,unlimited,full,fair 5 2 11, i0 s0, s8 s0, i1 s1, i2 s1, i3 s2, s7 s2, s4 s3, i4 s3, s0 s4, \
    s3 s4, s0 s5, s3 s5, s1 s6, s2 s6, s1 s7, s2 s7, s7 s8, s4 s8, s5 s9, s6 s9, s5 s10, s6 s10, s10 o0, s9 o1
balanced,full 5 3 6, i0 s0, i1 s0, i2 s1, i3 s2, i4 s3, s0 s3, s1 s4 s5, s2 s4 s5, s3 s1, s4 s2 o0, s5 o1 o2
balanced,drawn-evenly,full 5 3 10, i0 s0, i1 s1, i2 s1, i3 s2, i4 s2, s3 o0 o1, s4 o2, s5 s3, s6 s3, s5 s4, \
    s6 s4, s4 s5, s0 s5, s7 s6, s1 s6, s7 s0, s8 s7, s2 s7 s8, s9 s8, s0 s9, s1 s9
balanced,unlimited,full 5 3 13, i0 s0, i1 s0, i2 s1, i3 s1, i4 s2, s3 s4, s5 s4, s6 s7, s8 s7, s9 s3, s10 s3, \
    s9 s6, s10 s6, s0 s9, s1 s9, s2 s10, s11 s5, s12 s5, s11 s8, s12 s8, s0 s11, s1 s11, s2 s12, s4 o0 o1, s7 o2 s2
balanced,drawn-evenly,unlimited,full 5 3 17, i0 s0, i1 s0, i2 s1, i3 s1, i4 s2, s3 s4, s5 s4, s6 s7, s8 s7, \
    s9 s3, s10 s3, s9 s6, s10 s6, s0 s9, s11 s9 s10, s12 s10, s1 s11, s2 s11, s3 s12, s6 s12, s13 s5, s14 s5, \
    s13 s8, s14 s8, s0 s13, s15 s13 s14, s16 s14, s1 s15, s2 s15, s5 s16, s8 s16, s7 s2, s4 o0 o1, s7 o2
balanced,full 5 4 5, i0 s0, i1 s0, i2 s1, i3 s1, i4 s2, s0 s3 s4, s1 s2, s2 s3 s4, s3 o0 o1, s4 o2 o3
balanced,drawn-evenly,full 5 4 11, i0 s0, i1 s0, s5 s1, s2 s1, s0 s2, s4 s2, s1 s3, i2 s3, i3 s4, i4 s4, s6 s5, \
    s3 s5, s5 s6, s2 s6, s3 s7, s4 s7, s10 s8, s7 s8, s10 s9, s7 s9, s6 s10, s0 s10, s9 o0, s8 o1 o2, s9 o3
balanced,unlimited,full 5 4 13, i0 s0, i1 s0, i2 s1, i3 s1, i4 s2, s3 s4, s5 s4, s6 s7, s8 s7, s9 s3, s10 s3, \
    s9 s6, s10 s6, s0 s9, s1 s9, s2 s10, s11 s5, s12 s5, s11 s8, s12 s8, s0 s11, s1 s11, s2 s12, s4 o0 o1, s7 o2 o3
balanced,drawn-evenly,unlimited,full 5 4 18, s13 s0, i0 s0, i1 s1, i2 s1, i3 s2, i4 s2, s11 s3, s0 s3, s1 s4, \
    s2 s4, s12 s5, s0 s5, s1 s6, s2 s6, s3 s7, s4 s7, s3 s8, s4 s8, s5 s9, s6 s9, s5 s10, s6 s10, s7 s11, s8 s11, \
    s9 s12, s10 s12, s11 s13, s12 s13, s7 s14, s10 s14, s9 s15, s8 s15, s14 s16, s15 s16, s14 s17, s15 s17, \
    s16 o0 o1, s17 o2 o3
balanced,drawn-evenly,full 5 5 11, i0 s0, i1 s0, i2 s1, i3 s1, i4 s2, s0 s3 s4, s1 s3 s4, s2 s5 s6, s7 s5 s6, \
    s3 s8 s9, s5 s8 s9, s8 o0 o1, s9 o2 o3, s4 s10 s7, s6 s10 s7, s10 o4 s2
balanced,drawn-evenly,unlimited,full 5 5 18, i0 s0, i1 s0, i2 s1, i3 s1, i4 s2, s0 s3 s4, s1 s3 s4, s2 s5 s6, \
    s3 s5 s7, s5 s7 s8, s7 s9 s10, s8 s9 s10, s9 s8 s11, s10 s12 s13, s4 s6 s14, s6 s14 s15, s14 s16 s17, \
    s15 s16 s17, s16 s15 s11, s17 s12 s13, s11 o0 o1, s12 o2 o3, s13 o4 s2
balanced,full 5 6 11, i0 s0, i1 s0, i2 s1, i3 s1, i4 s2, s0 s3 s4, s1 s3 s4, s2 s5 s6, s7 s5 s6, s3 s8 s9, \
    s5 s8 s9, s8 o0 o1, s9 o2 o3, s4 s10 s7, s6 s10 s7, s10 o4 o5
balanced,unlimited,full 5 6 16, i0 s0, i1 s0, i2 s1, i3 s1, i4 s2, s0 s3 s4, s1 s5 s12, s2 s3 s4, s3 s5 s6, \
    s5 s7 s8, s6 s7 s8, s7 s6 s9, s8 s10 s11, s4 s12 s13, s12 s14 s15, s13 s14 s15, s14 s13 s9, s15 s10 s11, \
    s9 o0 o1, s10 o2 o3, s11 o4 o5
balanced,drawn-evenly,full 5 6 18, s0 o0 o1, s1 o2 o3, s2 o4 o5, s3 s5 s4, s4 s0 s1, s5 s2 s3, s6 s4 s5, \
    s7 s1 s2, s8 s0 s3, s9 s8 s7, s10 s6 s15, s11 s14 s9, s12 s11 s10, s13 s7 s8, s14 s10 s11, s15 s9 s14, \
    s16 s12 s13, s17 s13 s12, i0 s16, i1 s16, i2 s17, i3 s17, i4 s15
drawn-evenly,unlimited,full 5 6 23, s0 o0 o1, s1 o2 o3, s2 o4 o5, s12 s3, s3 s4 s5, s19 s4, s13 s6, s4 s6, \
    s6 s7 s8, s4 s7, s7 s8 s0, s8 s1 s2, s12 s5, s19 s9, s5 s9, s9 s10 s11, s5 s10, s10 s11 s0, s11 s1 s2, s14 s12, \
    s15 s12, s14 s13, s15 s13, s13 s14, s16 s14, s17 s15, s18 s15, s21 s19, s22 s19, s21 s20, s22 s20, s20 s21, \
    s16 s21, s17 s22, s18 s22, i0 s16, i1 s16, i2 s17, i3 s17, i4 s18, s20 s18
balanced,drawn-evenly,unlimited,full 5 6 25, i0 s19, i1 s23, i2 s20, i3 s24, i4 s20, s0 s1, s2 s4 s5, s3 s6 s13, \
    s1 s4 s5, s4 s6 s7, s6 s8 s9, s7 s8 s9, s8 s7 s10, s9 s11 s12, s5 s13 s14, s13 s15 s16, s14 s15 s16, \
    s15 s14 s10, s16 s11 s12, s17 s3 s0, s18 s2, s19 s17, s20 s17, s19 s18, s20 s18, s18 s19, s21 s3 s0, s22 s2, \
    s23 s21, s24 s21, s23 s22, s24 s22, s22 s23, s0 s24, s10 o0 o1, s11 o2 o3, s12 o4 o5
balanced,full 5 7 11, i0 s0, i1 s0, i2 s1, i3 s1, i4 s2, s0 s3 s4, s1 s3 s4, s2 s5 s6, s3 s7 s8, s5 s7 s8, \
    s7 o0 o1, s8 o2 o3, s4 s9 s10, s6 s9 s10, s9 o4 o5, s10 o6 s2
balanced,drawn-evenly,full 5 7 18, s0 o0 o1, s1 o2 o3, s2 o4 o5, s3 s2 s0, s4 s6 o6, s5 s0 s1, s6 s8 s5, \
    s7 s3 s12, s8 s2 s4, s9 s3 s12, s10 s9 s15, s11 s16 s7, s12 s4 s1, s13 s6 s14, s14 s15 s9, s15 s10 s13, \
    s16 s10 s13, s17 s16 s7, i0 s11, i1 s11, i2 s14, i3 s17, i4 s17
balanced,unlimited,full 5 7 19, i0 s0, i1 s0, i2 s1, i3 s1, i4 s2, s0 s3 s4, s1 s3 s4, s2 s5 s6, s3 s7 s8, \
    s5 s7 s8, s7 s9 s10, s8 s9 s10, s9 s11 s12, s10 s13 s14, s4 s15 s16, s6 s15 s16, s15 s17 s18, s16 s17 s18, \
    s17 s11 s12, s18 s13 s14, s11 o0 o1, s12 o2 o3, s13 o4 o5, s14 o6 s2
balanced,drawn-evenly,unlimited,full 5 7 25, i0 s0, i1 s0, i2 s7, i3 s1, i4 s8, s0 s2 s3, s1 s2 s3, s2 s1 s4, \
    s3 s5 s6, s7 s9 s10, s8 s9 s10, s9 s8 s4, s10 s5 s6, s4 s13 s21, s5 s14 s22, s6 s11 s12, s11 s13 s14, \
    s13 s15 s16, s14 s15 s16, s15 s17 s18, s16 s19 s20, s12 s21 s22, s21 s23 s24, s22 s23 s24, s23 s17 s18, \
    s24 s19 s20, s17 s7 o0, s18 o1 o2, s19 o3 o4, s20 o5 o6
balanced,full 5 8 11, i0 s0, i1 s0, i2 s1, i3 s1, i4 s2, s0 s3 s4, s1 s3 s4, s2 s5 s6, s3 s7 s8, s5 s7 s8, \
    s7 o0 o1, s8 o2 o3, s4 s9 s10, s6 s9 s10, s9 o4 o5, s10 o6 o7
balanced,drawn-evenly,full 5 8 18, s0 o0 o1, s1 o2 o3, s2 o4 o5, s3 o6 o7, s4 s1 s0, s5 s2 s3, s6 s1 s2, \
    s7 s0 s3, s8 s5 s4, s9 s13 s10, s10 s9 s11, s11 s6 s7, s12 s6 s7, s13 s8 s14, s14 s9 s11, s15 s13 s10, \
    s16 s15 s12, s17 s15 s12, i0 s14, i1 s17, i2 s17, i3 s16, i4 s16
balanced,unlimited,full 5 8 19, i0 s0, i1 s0, i2 s1, i3 s1, i4 s2, s0 s3 s4, s1 s3 s4, s2 s5 s6, s3 s7 s8, \
    s5 s7 s8, s7 s9 s10, s8 s9 s10, s9 s11 s12, s10 s13 s14, s4 s15 s16, s6 s15 s16, s15 s17 s18, s16 s17 s18, \
    s17 s11 s12, s18 s13 s14, s11 o0 o1, s12 o2 o3, s13 o4 o5, s14 o6 o7
balanced,drawn-evenly,unlimited,full 5 8 26, s0 o0 o1, s1 o2 o3, s2 o4 o5, s3 o6 o7, s4 s1 s3, s5 s1 s0, \
    s6 s2 s3, s7 s5 s6, s8 s0 s2, s9 s6 s5, s10 s4 s8, s11 s8 s4, s12 s7 s11, s13 s9 s10, s14 s12 s13, s15 s9 s20, \
    s16 s14 s7, s17 s11 s10, s18 s17 s15, s19 s15 s17, s20 s18 s22, s21 s19 s23, s22 s20 s16, s23 s21 s16, \
    s24 s22 s18, s25 s23 s19, i0 s21, i1 s25, i2 s25, i3 s24, i4 s24
balanced,unlimited,full,fair 6 1 5, i0 s0, i1 s0, i2 s1, i3 s2, i4 s3, i5 s4, s0 s1, s1 s2, s2 s3, s3 s4, s4 o0
balanced,drawn-evenly,full,fair 6 1 6, i0 s0, i1 s0, i2 s1, i3 s1, i4 s2, i5 s2, s3 o0, s4 s3, s5 s3, s3 s4, \
    s0 s4, s1 s5, s2 s5
balanced,drawn-evenly,unlimited,full,fair 6 1 7, i0 s0, i1 s0, i2 s1, i3 s1, i4 s2, i5 s2, s3 o0, s4 s3, s5 s3, \
    s6 s4, s0 s4, s1 s5, s2 s5, s4 s6, s5 s6
balanced,full,fair 6 2 5, i0 s0, i1 s0, i2 s1, i3 s2, i4 s3, i5 s4, s0 s2, s1 o0 o1, s2 s3, s3 s4, s4 s1
balanced,drawn-evenly,full,fair 6 2 7, i0 s0, i1 s0, i2 s1, i3 s1, i4 s2, i5 s2, s3 o0 o1, s4 s3, s5 s3, s6 s4, \
    s0 s4, s1 s5, s2 s5, s4 s6, s5 s6
balanced,unlimited,full,fair 6 2 7, i0 s0, i1 s0, i2 s1, i3 s1, i4 s2, i5 s2, s3 s4, s5 s6, s0 s3, s1 s3, s0 s5, \
    s1 s5, s4 o0, s6 o1, s2 s6 s4
balanced,drawn-evenly,unlimited,full,fair 6 2 11, i0 s0, i1 s0, i2 s1, i3 s1, i4 s2, i5 s2, s3 s4, s5 s4, s0 s3, \
    s1 s3, s2 s5, s6 s5, s3 s6, s5 s6, s7 s8, s9 s8, s0 s7, s1 s7, s2 s9, s10 s9, s7 s10, s9 s10, s4 o0, s8 o1
balanced,full 6 3 7, i0 s0, i1 s0, i2 s1, i3 s2, i4 s3, i5 s4, s0 s3, s1 s5 s6, s2 s5 s6, s3 s4, s4 s1, \
    s5 s2 o0, s6 o1 o2
balanced,drawn-evenly,full 6 3 7, i0 s0, i1 s0, i2 s1, i3 s1, i4 s2, i5 s2, s0 s3, s1 s3, s2 s4, s3 s5 s6, \
    s4 s5 s6, s5 s4 o0, s6 o1 o2
balanced,unlimited,full 6 3 14, i0 s0, i1 s0, i2 s1, i3 s1, i4 s2, i5 s2, s3 s4, s5 s4, s6 s7, s8 s7, s9 s3, \
    s10 s3, s9 s6, s10 s6, s0 s9, s1 s9, s2 s10, s11 s10, s12 s5, s13 s5, s12 s8, s13 s8, s0 s12, s1 s12, s2 s13, \
    s11 s13, s4 o0 o1, s7 o2 s11
balanced,drawn-evenly,unlimited,full 6 3 15, i0 s0, i1 s1, i2 s1, i3 s2, i4 s3, i5 s3, s4 s5, s6 s5, s4 s7, \
    s6 s7, s8 s9, s10 s9, s8 s4, s11 s4 s8, s12 s8, s0 s11, s1 s11, s0 s12, s1 s12, s12 s0, s10 s6, s13 s6 s10, \
    s14 s10, s2 s13, s3 s13, s2 s14, s3 s14, s14 s2, s5 o0, s7 o1, s9 o2
balanced,full 6 4 6, i0 s0, i1 s0, i2 s1, i3 s1, i4 s2, i5 s3, s0 s2, s1 s3, s2 s4 s5, s3 s4 s5, s4 o0 o1, \
    s5 o2 o3
balanced,drawn-evenly,full 6 4 10, i0 s0, i1 s0, i2 s1, i3 s2, i4 s2, i5 s3, s4 s5, s6 s5, s4 s7, s6 s7, s0 s4, \
    s1 s4, s8 s1, s0 s8, s1 s8, s2 s6, s3 s6, s9 s3, s2 s9, s3 s9, s5 o0 o1, s7 o2 o3
balanced,unlimited,full 6 4 13, i0 s0, i1 s0, i2 s1, i3 s1, i4 s2, i5 s2, s3 s4, s5 s4, s6 s7, s8 s7, s9 s3, \
    s10 s3, s9 s6, s10 s6, s0 s9, s1 s9, s2 s10, s11 s5, s12 s5, s11 s8, s12 s8, s0 s11, s1 s11, s2 s12, s4 o0 o1, \
    s7 o2 o3
balanced,drawn-evenly,unlimited,full 6 4 17, i0 s0, i1 s0, i2 s1, i3 s1, i4 s2, i5 s2, s3 s4, s5 s4, s6 s7, \
    s8 s7, s9 s3, s10 s3, s9 s6, s10 s6, s0 s9, s11 s9 s10, s12 s10, s1 s11, s2 s11, s3 s12, s6 s12, s13 s5, s14 s5, \
    s13 s8, s14 s8, s0 s13, s15 s13 s14, s16 s14, s1 s15, s2 s15, s5 s16, s8 s16, s4 o0 o1, s7 o2 o3
balanced,full 6 5 12, i0 s0, i1 s1, i2 s2, i3 s2, i4 s3, i5 s0, s0 s1, s1 s4 s5, s2 s4 s5, s3 s6 s7, s8 s6 s7, \
    s4 s9 s10, s6 s9 s10, s9 o0 o1, s10 o2 o3, s5 s11 s8, s7 s11 s8, s11 o4 s3
drawn-evenly,unlimited,full 6 5 16, s0 o0 o1, s1 o2 o3, s2 o4, s3 s0, s4 s0, s5 s1, s12 s1, s3 s2, s4 s2, s5 s3, \
    s6 s3, s7 s5, s8 s5, s7 s6, s8 s6, s6 s7, s9 s7, s10 s8, s11 s8, s12 s4, s13 s4, s14 s12, s15 s12, s14 s13, \
    s15 s13, s13 s14, s9 s14, s10 s15, s11 s15, i0 s9, i1 s9, i2 s10, i3 s10, i4 s11, i5 s11
balanced,drawn-evenly,full 6 5 18, i0 s0, i1 s0, i2 s1, i3 s1, i4 s2, i5 s2, s5 s3, s4 s3, s0 s4, s1 s4, s2 s5, \
    s3 s5, s4 s6, s5 s6, s1 s7, s2 s7, s0 s8, s3 s8, s8 s9, s7 s9, s6 s10, s15 s10, s14 s11, s9 s11, s11 s12, \
    s10 s12, s7 s13, s8 s13, s10 s14, s11 s14, s9 s15, s14 s15, s12 s16, s13 s16 s17, s12 s17, s16 o0 o1, s17 o2 o3, \
    s15 o4
balanced,unlimited,full 6 5 23, i0 s0, i1 s0, i2 s1, i3 s1, i4 s2, i5 s2, s3 s12, s4 s3, s5 s3, s4 s19, \
    s6 s13 s4, s7 s6, s8 s6, s7 s4, s8 s7, s0 s7, s1 s8, s2 s8, s5 s12, s9 s19 s5, s10 s9, s11 s9, s10 s5, s11 s10, \
    s0 s10, s1 s11, s2 s11, s12 s14 s15, s13 s14 s15, s14 s13 s16, s15 s17 s18, s19 s21 s22, s20 s21 s22, \
    s21 s20 s16, s22 s17 s18, s16 o0 o1, s17 o2 o3, s18 o4 s20
balanced,drawn-evenly,unlimited,full 6 5 25, s19 o0, s23 o1, s20 o2, s24 o3, s20 o4, s1 s0, s4 s2, s5 s2, s6 s3, \
    s13 s3, s4 s1, s5 s1, s6 s4, s7 s4, s8 s6, s9 s6, s8 s7, s9 s7, s7 s8, s10 s8, s11 s9, s12 s9, s13 s5, s14 s5, \
    s15 s13, s16 s13, s15 s14, s16 s14, s14 s15, s10 s15, s11 s16, s12 s16, s3 s17, s0 s17, s2 s18, s17 s19 s20, \
    s18 s19 s20, s19 s18, s3 s21, s0 s21, s2 s22, s21 s23 s24, s22 s23 s24, s23 s22, s24 s0, i0 s10, i1 s10, i2 s11, \
    i3 s11, i4 s12, i5 s12
balanced,drawn-evenly,full 6 6 11, i0 s0, i1 s0, i2 s1, i3 s1, i4 s2, i5 s2, s0 s3 s4, s1 s3 s4, s2 s5 s6, \
    s7 s5 s6, s3 s8 s9, s5 s8 s9, s8 o0 o1, s9 o2 o3, s4 s10 s7, s6 s10 s7, s10 o4 o5
balanced,drawn-evenly,unlimited,full 6 6 18, i0 s0, i1 s0, i2 s1, i3 s1, i4 s2, i5 s2, s0 s3 s4, s1 s3 s4, \
    s2 s5 s6, s3 s5 s7, s5 s7 s8, s7 s9 s10, s8 s9 s10, s9 s8 s11, s10 s12 s13, s4 s6 s14, s6 s14 s15, s14 s16 s17, \
    s15 s16 s17, s16 s15 s11, s17 s12 s13, s11 o0 o1, s12 o2 o3, s13 o4 o5
balanced,full 6 7 12, i0 s0, i1 s0, i2 s1, i3 s1, i4 s2, i5 s2, s0 s3 s4, s1 s3 s4, s2 s5 s6, s7 s5 s6, \
    s3 s8 s9, s5 s8 s9, s8 o0 o1, s9 o2 o3, s4 s10 s11, s6 s10 s11, s10 o4 o5, s11 o6 s7
balanced,drawn-evenly,full 6 7 18, s0 o0 s7, s1 o1 o2, s2 o3 o4, s3 o5 o6, s4 s0 s1, s5 s2 s3, s6 s0 s2, \
    s7 s4 s5, s8 s11 s13, s9 s4 s5, s10 s3 s1, s11 s10 s6, s12 s8 s9, s13 s8 s9, s14 s6 s10, s15 s14 s12, \
    s16 s14 s12, s17 s11 s13, i0 s15, i1 s15, i2 s17, i3 s17, i4 s16, i5 s16
balanced,unlimited,full 6 7 20, i0 s0, i1 s0, i2 s1, i3 s1, i4 s2, i5 s2, s0 s3 s4, s1 s3 s4, s2 s5 s6, \
    s7 s5 s6, s3 s8 s9, s5 s8 s9, s8 s10 s11, s9 s10 s11, s10 s12 s13, s11 s14 s15, s4 s16 s17, s6 s16 s17, \
    s16 s18 s19, s17 s18 s19, s18 s12 s13, s19 s14 s15, s12 o0 o1, s13 o2 o3, s14 o4 o5, s15 o6 s7
balanced,drawn-evenly,unlimited,full 6 7 35, i0 s0, i1 s0, i2 s1, i3 s2, i4 s2, i5 s3, s0 s4 s5, s1 s6 s7, \
    s4 s8 s9, s6 s8 s9, s8 s10 s11, s9 s12 s13, s5 s14 s15, s7 s14 s15, s14 s10 s11, s15 s12 s13, s13 s1, \
    s10 s16 s17, s11 s18 s19, s12 s20 s21, s13 s22, s2 s23 s24, s3 s25 s26, s23 s27 s28, s25 s27 s28, s27 s29 s30, \
    s28 s31 s32, s24 s33 s34, s26 s33 s34, s33 s29 s30, s34 s31 s32, s32 s3, s29 s16 s17, s30 s18 s19, s31 s20 s21, \
    s32 s22, s16 o0, s17 o1, s18 o2, s19 o3, s20 o4, s21 o5, s22 o6
balanced,full 6 8 11, i0 s0, i1 s0, i2 s1, i3 s1, i4 s2, i5 s2, s0 s3 s4, s1 s3 s4, s2 s5 s6, s3 s7 s8, \
    s5 s7 s8, s7 o0 o1, s8 o2 o3, s4 s9 s10, s6 s9 s10, s9 o4 o5, s10 o6 o7
balanced,drawn-evenly,full 6 8 17, i0 s0, i1 s0, i2 s1, i3 s1, i4 s2, i5 s2, s0 s3 s4, s1 s3 s4, s2 s5 s6, \
    s3 s7 s8, s5 s7 s8, s7 s5 s9, s8 s10 s11, s9 s10 s11, s10 o0 o1, s11 o2 o3, s4 s12 s13, s6 s12 s13, s12 s6 s14, \
    s13 s15 s16, s14 s15 s16, s15 o4 o5, s16 o6 o7
balanced,unlimited,full 6 8 19, i0 s0, i1 s0, i2 s1, i3 s1, i4 s2, i5 s2, s0 s3 s4, s1 s3 s4, s2 s5 s6, \
    s3 s7 s8, s5 s7 s8, s7 s9 s10, s8 s9 s10, s9 s11 s12, s10 s13 s14, s4 s15 s16, s6 s15 s16, s15 s17 s18, \
    s16 s17 s18, s17 s11 s12, s18 s13 s14, s11 o0 o1, s12 o2 o3, s13 o4 o5, s14 o6 o7
balanced,drawn-evenly,unlimited,full 6 8 25, s0 s1 s2, s1 o0 o1, s2 o2 o3, s3 o4 o5, s4 s0 s5, s5 s3 s6, \
    s6 o6 o7, s7 s1 s2, s8 s7 s9, s9 s3 s6, s10 s5 s0, s11 s10 s4, s12 s11 s8, s13 s7 s9, s14 s8 s13, s15 s4 s14, \
    s16 s12 s18, s17 s12 s18, s18 s17 s13, s19 s21 s10, s20 s19 s15, s21 s19 s15, s22 s16 s21, s23 s17 s20, \
    s24 s16 s20, i0 s22, i1 s22, i2 s23, i3 s23, i4 s24, i5 s24
balanced,unlimited,full,fair 7 1 6, i0 s0, i1 s0, i2 s1, i3 s1, i4 s2, i5 s2, i6 s3, s4 o0, s5 s4, s3 s4, s0 s5, \
    s1 s5, s2 s3
balanced,drawn-evenly,full,fair 7 1 7, i0 s0, i1 s1, i2 s1, i3 s2, i4 s2, i5 s3, i6 s3, s4 o0, s5 s4, s6 s4, \
    s0 s5, s1 s5, s2 s6, s3 s6, s4 s0
balanced,drawn-evenly,unlimited,full,fair 7 1 9, i0 s0, i1 s0, i2 s1, i3 s2, i4 s2, i5 s3, i6 s3, s4 o0, s5 s4, \
    s6 s4, s0 s5, s1 s5, s2 s6, s3 s6, s7 s1, s6 s7, s8 s7, s0 s8, s1 s8
balanced,full,fair 7 2 6, i0 s0, i1 s0, i2 s1, i3 s1, i4 s2, i5 s2, i6 s3, s4 o0 o1, s5 s4, s3 s4, s0 s5, s1 s5, \
    s2 s3
balanced,drawn-evenly,full,fair 7 2 8, i0 s0, i1 s0, i2 s1, i3 s1, i4 s2, i5 s2, i6 s3, s4 o0 o1, s5 s4, s6 s4, \
    s0 s5, s1 s5, s2 s6, s3 s6, s7 s3, s5 s7, s6 s7
balanced,unlimited,full,fair 7 2 10, i0 s0, i1 s0, i2 s1, i3 s1, i4 s2, i5 s2, i6 s3, s4 s5, s6 s5, s7 s8, \
    s9 s8, s0 s4, s1 s4, s0 s7, s1 s7, s2 s6, s3 s6, s2 s9, s3 s9, s5 o0, s8 o1
balanced,drawn-evenly,unlimited,full,fair 7 2 14, i0 s0, i1 s0, i2 s1, i3 s1, i4 s2, i5 s2, i6 s3, s4 s5, s6 s5, \
    s7 s8, s9 s8, s10 s4, s11 s4, s10 s7, s11 s7, s0 s10, s1 s10, s2 s11, s3 s11, s12 s6, s13 s6, s12 s9, s13 s9, \
    s0 s12, s1 s12, s2 s13, s3 s13, s8 s3, s5 o0 o1
balanced,full 7 3 8, i0 s0, i1 s1, i2 s2, i3 s0, i4 s1, i5 s2, i6 s3, s0 s3, s3 s4, s1 s4, s2 s5, s4 s6 s7, \
    s5 s6 s7, s6 s5 o0, s7 o1 o2
balanced,drawn-evenly,full 7 3 11, i0 s0, i1 s1, i2 s1, i3 s2, i4 s2, i5 s3, i6 s3, s4 s5, s6 s7 s8, s5 s7 s8, \
    s7 s5, s9 s6, s10 s6, s9 s4, s10 s4, s0 s9, s1 s9, s2 s10, s3 s10, s4 s0, s7 o0, s8 o1 o2
balanced,drawn-evenly,unlimited,full 7 3 14, i0 s0, i1 s0, i2 s1, i3 s1, i4 s2, i5 s2, i6 s3, s4 s5, s6 s5, \
    s7 s8, s9 s8, s10 s4, s11 s4, s10 s7, s11 s7, s0 s10, s1 s10, s2 s11, s3 s11, s12 s6, s13 s6, s12 s9, s13 s9, \
    s0 s12, s1 s12, s2 s13, s3 s13, s5 o0 o1, s8 o2 s3
balanced,full 7 4 7, i0 s0, i1 s0, i2 s1, i3 s1, i4 s2, i5 s2, i6 s3, s4 o0 o1, s5 o2 o3, s6 s4, s3 s4, s6 s5, \
    s3 s5, s0 s6, s1 s6, s2 s3
balanced,drawn-evenly,full 7 4 11, s7 s0, i0 s0, i1 s1, i2 s1, i3 s2, i4 s2, i5 s3, i6 s3, s3 s4, s2 s4, s0 s5, \
    s1 s5, s0 s6, s2 s6, s4 s7, s5 s7, s3 s8, s1 s8, s6 s9, s8 s9, s6 s10, s8 s10, s9 o0 o1, s10 o2 o3
balanced,unlimited,full 7 4 14, i0 s0, i1 s0, i2 s1, i3 s1, i4 s2, i5 s2, i6 s3, s4 s5, s6 s5, s7 s8, s9 s8, \
    s10 s4, s11 s4, s10 s7, s11 s7, s0 s10, s1 s10, s2 s11, s3 s11, s12 s6, s13 s6, s12 s9, s13 s9, s0 s12, s1 s12, \
    s2 s13, s3 s13, s5 o0 o1, s8 o2 o3
balanced,drawn-evenly,unlimited,full 7 4 19, i0 s0, i1 s0, i2 s1, i3 s1, i4 s2, i5 s2, i6 s3, s14 s3, s0 s4, \
    s1 s4, s2 s5, s3 s5, s2 s6, s3 s6, s0 s7, s1 s7, s7 s8, s5 s8, s7 s9, s5 s9, s4 s10, s6 s10, s4 s11, s6 s11, \
    s8 s12, s9 s12, s10 s13, s11 s13, s12 s14, s13 s14, s8 s15, s9 s15, s10 s16, s11 s16, s16 s17, s15 s17 s18, \
    s16 s18, s17 o0 o1, s18 o2 o3
balanced,full 7 5 13, i0 s0, i1 s1, i2 s2, i3 s2, i4 s3, i5 s0, i6 s1, s0 s4, s1 s4, s4 s5 s6, s2 s5 s6, \
    s3 s7 s8, s9 s7 s8, s5 s10 s11, s7 s10 s11, s10 o0 o1, s11 o2 o3, s6 s12 s9, s8 s12 s9, s12 o4 s3
balanced,drawn-evenly,full 7 5 18, i0 s0, i1 s0, i2 s1, i3 s1, i4 s2, i5 s2, s2 s3, s0 s3, s6 s4, i6 s4, s0 s5, \
    s1 s5, s8 s6, s5 s6, s3 s7, s12 s7, s2 s8, s4 s8, s3 s9, s12 s9, s9 s10, s15 s10, s16 s11, s7 s11, s4 s12, \
    s1 s12, s6 s13, s14 s13, s15 s14, s9 s14, s10 s15, s13 s15, s10 s16, s13 s16, s16 s17, s7 s17, s11 o0 o1, \
    s14 o2, s17 o3 o4
balanced,drawn-evenly,unlimited,full 7 5 25, s0 o0 o1, s7 o2, s1 o3, s8 o4, s2 s0, s3 s0, s2 s1, s3 s1, s1 s2, \
    s4 s2, s5 s3, s6 s3, s9 s7, s10 s7, s9 s8, s10 s8, s8 s9, s4 s9, s5 s10, s6 s10, s13 s4, s21 s4, s14 s5, s22 s5, \
    s11 s6, s12 s6, s13 s11, s14 s11, s15 s13, s16 s13, s15 s14, s16 s14, s17 s15, s18 s15, s19 s16, s20 s16, \
    s21 s12, s22 s12, s23 s21, s24 s21, s23 s22, s24 s22, s17 s23, s18 s23, s19 s24, s20 s24, s7 s17, i0 s17, \
    i1 s18, i2 s18, i3 s19, i4 s19, i5 s20, i6 s20
balanced,full 7 6 12, i0 s0, i1 s1, i2 s2, i3 s2, i4 s3, i5 s3, i6 s0, s0 s1, s1 s4 s5, s2 s4 s5, s3 s6 s7, \
    s8 s6 s7, s4 s9 s10, s6 s9 s10, s9 o0 o1, s10 o2 o3, s5 s11 s8, s7 s11 s8, s11 o4 o5
balanced,drawn-evenly,full 7 6 18, i0 s0, s7 s0, i1 s1, i2 s1, i3 s2, i4 s2, i5 s3, i6 s3, s0 s4, s1 s4, s2 s5, \
    s3 s5, s0 s6, s2 s6, s4 s7, s5 s7, s11 s8, s13 s8, s4 s9, s5 s9, s3 s10, s1 s10, s10 s11, s6 s11, s8 s12, \
    s9 s12, s8 s13, s9 s13, s6 s14, s10 s14, s14 s15, s12 s15, s14 s16, s12 s16, s11 s17, s13 s17, s15 o0 o1, \
    s17 o2 o3, s16 o4 o5
balanced,drawn-evenly,unlimited,full 7 6 35, i0 s0, i1 s1, i2 s2, i3 s3, i4 s4, i5 s5, i6 s6, s7 s8, s9 s8, \
    s10 s11, s12 s11, s13 s7, s14 s7, s13 s10, s14 s10, s15 s13, s16 s13, s17 s14, s18 s14, s19 s9, s20 s9, s19 s12, \
    s20 s12, s15 s19, s16 s19, s17 s20, s18 s20, s11 s18, s0 s15, s1 s15, s2 s16, s3 s16, s4 s17, s5 s17, s6 s18, \
    s21 s22, s23 s22, s24 s25, s26 s25, s27 s21, s28 s21, s27 s24, s28 s24, s29 s27, s30 s27, s31 s28, s32 s28, \
    s33 s23, s34 s23, s33 s26, s34 s26, s29 s33, s30 s33, s31 s34, s32 s34, s25 s32, s0 s29, s1 s29, s2 s30, s3 s30, \
    s4 s31, s5 s31, s6 s32, s8 o0 o1, s11 o2, s22 o3 o4, s25 o5
balanced,drawn-evenly,full 7 7 12, i0 s0, i1 s0, i2 s1, i3 s1, i4 s2, i5 s2, i6 s3, s0 s4 s5, s1 s4 s5, \
    s2 s6 s7, s3 s6 s7, s4 s8 s9, s6 s8 s9, s8 o0 o1, s9 o2 o3, s5 s10 s11, s7 s10 s11, s10 o4 o5, s11 o6 s3
balanced,drawn-evenly,unlimited,full 7 7 20, i0 s0, i1 s0, i2 s1, i3 s1, i4 s2, i5 s2, i6 s3, s0 s4 s5, \
    s1 s4 s5, s2 s6 s7, s3 s6 s7, s4 s8 s9, s6 s8 s9, s8 s10 s11, s9 s10 s11, s10 s12 s13, s11 s14 s15, s5 s16 s17, \
    s7 s16 s17, s16 s18 s19, s17 s18 s19, s18 s12 s13, s19 s14 s15, s12 o0 o1, s13 o2 o3, s14 o4 o5, s15 o6 s3
balanced,full 7 8 12, i0 s0, i1 s0, i2 s1, i3 s1, i4 s2, i5 s2, i6 s3, s0 s4 s5, s1 s4 s5, s2 s6 s7, s3 s6 s7, \
    s4 s8 s9, s6 s8 s9, s8 o0 o1, s9 o2 o3, s5 s10 s11, s7 s10 s11, s10 o4 o5, s11 o6 o7
balanced,drawn-evenly,full 7 8 19, s0 o0 o1, s1 o2 o3, s2 o4 o5, s3 o6 o7, s4 s1 s0, s5 s2 s3, s6 s0 s2, \
    s7 s1 s3, s8 s4 s5, s9 s4 s5, s10 s7 s6, s11 s8 s14, s12 s7 s6, s13 s8 s14, s14 s9 s18, s15 s10 s11, \
    s16 s10 s11, s17 s13 s12, s18 s13 s12, i0 s16, i1 s16, i2 s15, i3 s15, i4 s18, i5 s17, i6 s17
balanced,unlimited,full 7 8 20, i0 s0, i1 s0, i2 s1, i3 s1, i4 s2, i5 s2, i6 s3, s0 s4 s5, s1 s4 s5, s2 s6 s7, \
    s3 s6 s7, s4 s8 s9, s6 s8 s9, s8 s10 s11, s9 s10 s11, s10 s12 s13, s11 s14 s15, s5 s16 s17, s7 s16 s17, \
    s16 s18 s19, s17 s18 s19, s18 s12 s13, s19 s14 s15, s12 o0 o1, s13 o2 o3, s14 o4 o5, s15 o6 o7
balanced,drawn-evenly,unlimited,full 7 8 27, i0 s0, i1 s0, i2 s1, i3 s1, i4 s2, i5 s2, i6 s3, s5 s15, s6 s23, \
    s5 s16, s6 s24, s7 s13, s8 s14, s7 s4, s8 s3, s9 s5, s10 s5, s9 s7, s10 s7, s0 s9, s1 s10, s2 s9, s3 s10, \
    s11 s6, s12 s6, s11 s8, s12 s8, s0 s11, s1 s12, s2 s11, s3 s12, s4 s13 s14, s13 s15 s16, s15 s17 s18, \
    s16 s17 s18, s17 s19 s20, s18 s21 s22, s14 s23 s24, s23 s25 s26, s24 s25 s26, s25 s19 s20, s26 s21 s22, \
    s19 o0 o1, s20 o2 o3, s21 o4 o5, s22 o6 o7
balanced,drawn-evenly,unlimited,full,fair 8 1 7, i0 s0, i1 s0, i2 s1, i3 s1, i4 s2, i5 s2, i6 s3, i7 s3, s4 o0, \
    s5 s4, s6 s4, s0 s5, s1 s5, s2 s6, s3 s6
balanced,drawn-evenly,full,fair 8 2 7, i0 s0, i1 s0, i2 s1, i3 s1, i4 s2, i5 s2, i6 s3, i7 s3, s4 o0 o1, s5 s4, \
    s6 s4, s0 s5, s1 s5, s2 s6, s3 s6
balanced,drawn-evenly,unlimited,full,fair 8 2 10, i0 s0, i1 s0, i2 s1, i3 s1, i4 s2, i5 s2, i6 s3, i7 s3, s4 s5, \
    s6 s5, s7 s8, s9 s8, s0 s4, s1 s4, s0 s7, s1 s7, s2 s6, s3 s6, s2 s9, s3 s9, s5 o0, s8 o1
balanced,full 8 3 9, i0 s0, i1 s0, i2 s1, i3 s1, i4 s2, i5 s2, i6 s3, i7 s3, s0 s4, s1 s4, s2 s5, s3 s6, s4 s5, \
    s5 s7 s8, s6 s7 s8, s7 s6 o0, s8 o1 o2
balanced,drawn-evenly,full 8 3 11, i0 s0, i1 s0, i2 s1, i3 s1, i4 s2, i5 s2, i6 s3, i7 s3, s4 s5, s6 s5, s4 s7, \
    s6 s7, s7 s4, s8 s4, s9 s6, s10 s6, s9 s8, s10 s8, s0 s9, s1 s9, s2 s10, s3 s10, s5 o0 o1, s7 o2
balanced,drawn-evenly,unlimited,full 8 3 17, s0 o0, s1 o1 o2, s5 s3, s2 s3, s6 s4, s3 s0 s1, s4 s0 s1, s0 s4, \
    s7 s2, s8 s2, s9 s5, s10 s5, s9 s7, s10 s7, s11 s9, s12 s9, s13 s10, s14 s10, s15 s6, s16 s6, s15 s8, s16 s8, \
    s11 s15, s12 s15, s13 s16, s14 s16, i0 s11, i1 s11, i2 s12, i3 s12, i4 s13, i5 s13, i6 s14, i7 s14
balanced,drawn-evenly,full 8 4 8, i0 s0, i1 s0, i2 s1, i3 s1, i4 s2, i5 s2, i6 s3, i7 s3, s4 o0 o1, s5 o2 o3, \
    s6 s4, s7 s4, s6 s5, s7 s5, s0 s6, s1 s6, s2 s7, s3 s7
balanced,drawn-evenly,unlimited,full 8 4 14, i0 s0, i1 s0, i2 s1, i3 s1, i4 s2, i5 s2, i6 s3, i7 s3, s4 s5, \
    s6 s5, s7 s8, s9 s8, s10 s4, s11 s4, s10 s7, s11 s7, s0 s10, s1 s10, s2 s11, s3 s11, s12 s6, s13 s6, s12 s9, \
    s13 s9, s0 s12, s1 s12, s2 s13, s3 s13, s5 o0 o1, s8 o2 o3
balanced,full 8 5 14, i0 s0, i1 s1, i2 s2, i3 s3, i4 s4, i5 s0, i6 s1, i7 s2, s0 s5, s1 s5, s2 s3, s5 s6 s7, \
    s3 s6 s7, s4 s8 s9, s10 s8 s9, s6 s11 s12, s8 s11 s12, s11 o0 o1, s12 o2 o3, s7 s13 s10, s9 s13 s10, s13 o4 s4
balanced,drawn-evenly,full 8 5 18, i0 s0, i1 s0, i2 s1, i3 s1, i4 s2, i5 s2, i6 s3, i7 s3, s1 s4, s0 s4, s2 s5, \
    s3 s5, s1 s6, s2 s6, s0 s7, s3 s7, s5 s8, s4 s8, s13 s9, s10 s9, s9 s10, s11 s10, s6 s11, s7 s11, s6 s12, \
    s7 s12, s8 s13, s14 s13, s9 s14, s11 s14, s13 s15, s10 s15, s15 s16, s12 s16, s15 s17, s12 s17, s14 o0, \
    s17 o1 o2, s16 o3 o4
balanced,drawn-evenly,unlimited,full 8 5 26, i0 s0, i1 s0, i2 s1, i3 s1, i4 s2, i5 s2, i6 s3, i7 s3, s1 s4, \
    s3 s4, s1 s5, s0 s5, s2 s6, s3 s6, s5 s7, s6 s7, s0 s8, s2 s8, s6 s9, s5 s9, s4 s10, s8 s10 s11, s4 s11, s7 s12, \
    s11 s12, s9 s13, s10 s13, s12 s14, s13 s14, s9 s15, s20 s15, s14 s16, s7 s16, s11 s17, s10 s17, s17 s18, \
    s15 s18 s19, s17 s19, s18 s20, s22 s20, s19 s21, s23 s21, s20 s22, s16 s22, s21 s23, s16 s23, s22 s24, s18 s24, \
    s23 s25, s19 s25, s21 o0, s25 o1 o2, s24 o3 o4
balanced,full 8 6 13, i0 s0, i1 s0, i2 s1, i3 s2, i4 s3, i5 s3, i6 s4, i7 s5, s0 s1, s1 s6 s7, s2 s6 s7, \
    s6 s2 s8, s7 s9 s10, s3 s4, s4 s11 s12, s5 s11 s12, s11 s5 s8, s12 s9 s10, s8 o0 o1, s9 o2 o3, s10 o4 o5
balanced,drawn-evenly,full 8 6 17, i0 s0, i1 s0, i2 s1, i3 s1, i4 s2, i5 s2, i6 s3, i7 s3, s4 o0 o1, s5 o2 o3, \
    s6 o4 o5, s7 s4, s8 s4, s7 s5, s8 s5, s9 s6, s10 s6, s11 s7, s12 s7, s11 s9, s12 s9, s9 s11, s13 s11, s0 s12, \
    s1 s12, s0 s13, s1 s13, s14 s8, s15 s8, s14 s10, s15 s10, s10 s14, s16 s14, s2 s15, s3 s15, s2 s16, s3 s16
balanced,drawn-evenly,unlimited,full 8 6 25, s1 s0, s2 s0, i0 s1, i1 s1, i2 s2, i3 s2, i4 s3, i5 s3, s0 s4, \
    s5 s4, s3 s5, s6 s5, i6 s6, i7 s6, s1 s7, s2 s7, s7 s8, s9 s8, s3 s9, s6 s9, s5 s10, s0 s10, s10 s11, s4 s11, \
    s11 s12, s8 s12, s7 s13, s9 s13, s8 s14, s13 s14, s4 s15, s14 s15, s12 s16, s18 s16, s12 s17, s18 s17, s17 s18, \
    s13 s18, s21 s19, s10 s19, s19 s20, s15 s20, s19 s21, s15 s21, s16 s22, s21 s22, s17 s23, s20 s23, s16 s24, \
    s20 s24, s22 o0 o1, s23 o2 o3, s24 o4 o5
balanced,full 8 7 13, i0 s0, i1 s1, i2 s2, i3 s2, i4 s3, i5 s3, i6 s4, i7 s0, s0 s1, s1 s5 s6, s2 s5 s6, \
    s3 s7 s8, s4 s7 s8, s5 s9 s10, s7 s9 s10, s9 o0 o1, s10 o2 o3, s6 s11 s12, s8 s11 s12, s11 o4 o5, s12 o6 s4
balanced,drawn-evenly,full 8 7 19, i0 s0, i1 s0, i2 s1, i3 s1, i4 s2, i5 s2, i6 s3, i7 s3, s1 s4, s0 s4, s2 s5, \
    s3 s5, s0 s6, s2 s6, s1 s7, s3 s7, s4 s8, s5 s8, s4 s9, s5 s9, s7 s10, s6 s10, s8 s11, s14 s11, s7 s12, s6 s12, \
    s8 s13, s14 s13, s9 s14, s18 s14, s10 s15, s11 s15, s10 s16, s11 s16, s13 s17, s12 s17, s13 s18, s12 s18, \
    s16 o0 o1, s15 o2 o3, s18 o4, s17 o5 o6
balanced,drawn-evenly,unlimited,full 8 7 27, s0 o0 o1, s1 o2 o3, s2 o4 o5, s3 o6, s15 s5, s23 s6, s16 s5, \
    s24 s6, s13 s7, s14 s8, s4 s7, s3 s8, s5 s9 s10, s7 s9 s10, s9 s0, s10 s1, s9 s2, s10 s3, s6 s11 s12, \
    s8 s11 s12, s11 s0, s12 s1, s11 s2, s12 s3, s13 s4, s14 s4, s15 s13, s16 s13, s17 s15, s18 s15, s17 s16, \
    s18 s16, s19 s17, s20 s17, s21 s18, s22 s18, s23 s14, s24 s14, s25 s23, s26 s23, s25 s24, s26 s24, s19 s25, \
    s20 s25, s21 s26, s22 s26, i0 s19, i1 s19, i2 s20, i3 s20, i4 s21, i5 s21, i6 s22, i7 s22
balanced,drawn-evenly,full 8 8 12, i0 s0, i1 s0, i2 s1, i3 s1, i4 s2, i5 s2, i6 s3, i7 s3, s0 s4 s5, s1 s4 s5, \
    s2 s6 s7, s3 s6 s7, s4 s8 s9, s6 s8 s9, s8 o0 o1, s9 o2 o3, s5 s10 s11, s7 s10 s11, s10 o4 o5, s11 o6 o7
balanced,drawn-evenly,unlimited,full 8 8 20, i0 s0, i1 s0, i2 s1, i3 s1, i4 s2, i5 s2, i6 s3, i7 s3, s0 s4 s5, \
    s1 s4 s5, s2 s6 s7, s3 s6 s7, s4 s8 s9, s6 s8 s9, s8 s10 s11, s9 s10 s11, s10 s12 s13, s11 s14 s15, s5 s16 s17, \
    s7 s16 s17, s16 s18 s19, s17 s18 s19, s18 s12 s13, s19 s14 s15, s12 o0 o1, s13 o2 o3, s14 o4 o5, s15 o6 o7
";
