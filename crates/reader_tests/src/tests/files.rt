// Files, and what is read from them: by the rows, or the code and the line of a refusal.
use crate::tests::told::{Form, assert_read};
use row_model::NoMemory;

const READ: &[(Form, &[u8], &str)] = &[
    // Lines of digits.
    (
        Form::Dense,
        b"1100\n1110\n1100\n1110\n",
        "4: [ 1 2 ] [ 1 2 3 ] [ 1 2 ] [ 1 2 3 ]",
    ),
    // A mark, blanks and returns are passed over.
    (
        Form::Dense,
        b"\xEF\xBB\xBF\r\n0 1\t1\r\n \n000\r",
        "3: [ 2 3 ] [ ]",
    ),
    // More digits than are read at once; in the second line a space is among them.
    (
        Form::Dense,
        b"1000000010000000000000000000000000000000000000000000000000000001100001\n\
              0100000000000000000000000000000000000000 000000000000000000000010010000\n",
        "70: [ 1 9 64 65 70 ] [ 2 63 66 ]",
    ),
    // Lines that name columns.
    (
        Form::Rows,
        b"5\n1 2\n3 4\n2 3\n",
        "5: [ 1 2 ] [ 3 4 ] [ 2 3 ]",
    ),
    // A row is a set, and may be empty.
    (
        Form::Rows,
        b"\xEF\xBB\xBF 04\r\n3 1 3\n\n4\t02\r",
        "4: [ 1 3 ] [ ] [ 2 4 ]",
    ),
    // A row may name its columns in any order.
    (
        Form::Rows,
        b"40\n9 3 40 9 1\n\n7 2\n6 5 4 3 2 1 6\n40\n",
        "40: [ 1 3 9 40 ] [ ] [ 2 7 ] [ 1 2 3 4 5 6 ] [ 40 ]",
    ),
    // A row may be told in other forms.
    (
        Form::Rows,
        b"3\n1 3\n1\t3\n1 3\r\n1  3\n 1 3 \n2 2\n0000000003\n1 2 3",
        "3: [ 1 3 ] [ 1 3 ] [ 1 3 ] [ 1 3 ] [ 1 3 ] [ 2 ] [ 3 ] [ 1 2 3 ]",
    ),
    // Further rows, of three columns, begin with the first line.
    (Form::More, b"1 3\n1 2 3\n", "3: [ 1 3 ] [ 1 2 3 ]"),
    // Long lines are read in any form.
    (
        Form::Rows,
        b"2048\n\
        1 22 333 1004 1005 1006 1007 1008 1009 1010 1011 1012 1013 1014 1015 1016\n\
        7 8 99 100 101 1002 1003 1004 1005 1006 1007 1008 1009 1010 1011 2048\n\
        7 8 99 100 101 1002 1003 1004 1005 1006 1007 1008 1009 1010\t1011 2048\r\n\
        7 8 99 100 101 1002 1003 1004 1005 1006 1007 1008 1009 01010 1011 0000002048\n\
        7 8 99 100 101 1002 1003 1004 1005 1006 1007 1008 1009 1010 2048 1011  8\n\
        2 3",
        "2048: \
        [ 1 22 333 1004 1005 1006 1007 1008 1009 1010 1011 1012 1013 1014 1015 1016 ] \
        [ 7 8 99 100 101 1002 1003 1004 1005 1006 1007 1008 1009 1010 1011 2048 ] \
        [ 7 8 99 100 101 1002 1003 1004 1005 1006 1007 1008 1009 1010 1011 2048 ] \
        [ 7 8 99 100 101 1002 1003 1004 1005 1006 1007 1008 1009 1010 1011 2048 ] \
        [ 7 8 99 100 101 1002 1003 1004 1005 1006 1007 1008 1009 1010 1011 2048 ] \
        [ 2 3 ]",
    ),
    // Tables of cells: crosses and numbers mark columns.
    (
        Form::Table,
        b"\xEF\xBB\xBFt,a,b,c\nx,2,X,\ny, ,0,1\n",
        "3: [ 1 2 ] [ 3 ]",
    ),
    // Quotes stand round names and cells.
    (
        Form::Table,
        b"\"Type\",\"Grave 1, east\",\r\n\"Type \xFF\",,\"\t10 \"",
        "2: [ 2 ]",
    ),
    // Clones that name their probes are rows over these.
    (
        Form::Clones,
        b"{\"probes\":[\"a\",\"b\",\"c\",\"d\",\"e\"],\"clones\":[\
        {\"name\":\"k1\",\"probes\":[\"b\",\"a\"]},{\"name\":\"k2\",\"probes\":[\"b\",\"c\"]},\
        {\"name\":\"k3\",\"probes\":[]},{\"name\":\"k4\",\"probes\":[\"d\"]}]}",
        "5: [ 1 2 ] [ 2 3 ] [ ] [ 4 ]",
    ),
    // A probe that is named twice counts once, and of two lists of probes the last counts.
    (
        Form::Clones,
        b"\xEF\xBB\xBF{\"clones\":[{\"probes\":[\"b\",\"\\u0062\"]}],\"probes\":[],\"probes\":[\"a\",\"b\"]}",
        "2: [ 2 ]",
    ),
    (
        Form::Clones,
        b"{\"probes\":[\"a\",1],\"clones\":[]}",
        "refused 10 in line 0",
    ),
    (
        Form::Clones,
        b"{\"probes\":[\"a\",\"b\",\"a\"],\"clones\":[1]}",
        "refused 5 in line 0",
    ),
    (
        Form::Clones,
        b"{\"probes\":[\"a\"],\"clones\":[{\"probes\":[\"b\",1]}]}",
        "refused 10 in line 1",
    ),
    (
        Form::Clones,
        b"{\"probes\":[\"a\"],\"clones\":[{\"probes\":[\"a\"]},{\"probes\":[\"b\"]}]}",
        "refused 4 in line 2",
    ),
    (
        Form::Clones,
        b"{\"probes\":[\"a\"],\"clones\":[{\"probes\":[\"a\"]},[\"a\"]]}",
        "refused 10 in line 2",
    ),
    // The edges of bipartite graphs come in any order and form.
    (
        Form::Bigraph,
        b"2 3\n2 3\n\n1 3\n1 1\r\n 2\t2\n1 1",
        "2 to 3: [ 1 3 ] [ 2 3 ]",
    ),
    // Edges at the borders of words are kept.
    (
        Form::Bigraph,
        b"3 64\n3 64\n2 1\n1 64\n1 1\n2 1\n1 2\n",
        "3 to 64: [ 1 2 64 ] [ 1 ] [ 64 ]",
    ),
    // Few edges may stand between many vertices.
    (
        Form::Bigraph,
        b"4 2048\n3 2048\n1 7\n3 1\n1 7\n3 64\n",
        "4 to 2048: [ 7 ] [ ] [ 1 64 2048 ] [ ]",
    ),
    // Graphs.
    (
        Form::Graph,
        b"4\n1 2\n2 3\n3 4\n",
        "4: [ 2 ] [ 1 3 ] [ 2 4 ] [ 3 ]",
    ),
    // The lines may have any form.
    (
        Form::Graph,
        b"4\n3 4\n1\t2\n 2 3 \n\n4 3\n2 1\r\n0000000002 1\n4 3",
        "4: [ 2 ] [ 1 3 ] [ 2 4 ] [ 3 ]",
    ),
    // Distances.
    (
        Form::Distances,
        b"3\n0 1 2\n1 0 1\n2 1 0\n",
        "3: 0 1 2 1 0 1 2 1 0",
    ),
];

#[test]
fn files_are_read_by_their_forms(rt: HostRuntime) -> Result<(), NoMemory> {
    assert_read(&rt, rt.alloc(), READ)
}
