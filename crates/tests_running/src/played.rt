// Jobs and files of calls that tests play, with the texts that they answer, worked out by hand.

/// A job, a file of calls for its old program, and the text that they answer.
pub(crate) struct Played {
    pub(crate) name: &'static str,
    pub(crate) job: &'static str,
    pub(crate) calls: &'static str,
    pub(crate) answers: &'static str,
}

/// Adds of one row, of which two are equal.
const ADDS: Played = Played {
    name: "adds",
    job: "old
table user { uid: int, nick: text }
new
table person { id: int, nick: text }
program
update add(id: int, nick: text) {
  insert into user { user.uid = id, user.nick = nick };
}
query get(id: int) {
  select user.nick from user where user.uid = id;
}
",
    calls: "add,7,Ann\nadd,7,Bob\nadd,7,Ann\nget,7\nget,8\n",
    answers: "3,get,3\nAnn\nAnn\nBob\n4,get,0\n",
};

/// A delete from two tables at once.
const CUT: Played = Played {
    name: "a delete from two tables",
    job: "old
table A { id: int, x: int }
table B { id: int, y: int }
new
program
update addA(i: int, x: int) { insert into A { A.id = i, A.x = x }; }
update addB(i: int, y: int) { insert into B { B.id = i, B.y = y }; }
update cut(i: int) { delete A, B from A join B on A.id = B.id where A.id = i; }
query getA() { select A.x from A; }
query getB() { select B.y from B; }
",
    calls: "addA,1,5\naddB,1,6\naddB,1,7\naddB,2,8\ncut,1\ngetA\ngetB\n",
    answers: "5,getA,0\n6,getB,1\n8\n",
};

/// Two inserts into one table, with the same two fresh keys; call 0 has the keys 0 to 15, call 1 has 16 to 31.
const PAIRS: Played = Played {
    name: "two fresh keys, twice",
    job: "old
table node { k: key, l: key, n: int }
new
program
update pair(n: int) {
  insert into node { node.k = fresh 0, node.l = fresh 1, node.n = n };
  insert into node { node.k = fresh 1, node.l = fresh 0, node.n = n };
}
query all() { select node.k, node.l, node.n from node; }
",
    calls: "pair,5\npair,-6\nall\n",
    answers: "2,all,4\n#0,#1,5\n#1,#0,5\n#16,#17,-6\n#17,#16,-6\n",
};

/// One insert into two tables that a key joins, and a query back through that key.
const KEYED: Played = Played {
    name: "tables joined by a key",
    job: "old
table man { name: text, pid: key }
table picture { pid: key, pic: text }
new
program
update add(name: text, pic: text) {
  insert into man join picture on man.pid = picture.pid { man.name = name, man.pid = fresh 3, picture.pic = pic };
}
update redraw(name: text, pic: text) { set picture.pic = pic in man join picture on man.pid = picture.pid where man.name = name; }
query who(pic: text) { select man.name, man.pid from man join picture on man.pid = picture.pid where picture.pic = pic; }
",
    calls: "add,Ann,a\nadd,\"B, C\",b\nadd,\"\",b\nredraw,Ann,b\nwho,a\nwho,b\n",
    answers: "4,who,0\n5,who,3\n,#35\nAnn,#3\n\"B, C\",#19\n",
};

/// A set of the column by which its own join finds rows: all rows are found before the first is written.
const MOVE: Played = Played {
    name: "a set of a column that joins",
    job: "old
table A { id: int, x: int }
table B { id: int, y: int }
new
program
update addA(i: int, x: int) { insert into A { A.id = i, A.x = x }; }
update addB(i: int, y: int) { insert into B { B.id = i, B.y = y }; }
update move(x: int, j: int) { set B.id = j in A join B on A.id = B.id where A.x = x; }
query getB(x: int) { select B.id, B.y from A join B on A.id = B.id where A.x = x; }
query allB() { select B.id, B.y from B; }
",
    calls: "addA,1,10\naddA,2,10\naddB,1,5\naddB,2,6\naddB,3,7\nmove,10,2\nallB\nmove,10,3\ngetB,10\nallB\n",
    answers: "6,allB,3\n2,5\n2,6\n3,7\n8,getB,0\n9,allB,3\n3,5\n3,6\n3,7\n",
};

/// A condition of three cases; a row that meets two of them stands once.
const CASES: Played = Played {
    name: "a condition of several cases",
    job: "old
table A { id: int, x: int, t: text }
new
program
update add(i: int, x: int, t: text) { insert into A { A.id = i, A.x = x, A.t = t }; }
query some(i: int, t: text) {
  select A.id, A.t from A where A.id = i and A.x < 3 or A.x >= 9 and A.t <> t or A.id = i and A.t = t;
}
",
    calls: "add,1,2,a\nadd,1,3,b\nadd,1,3,c\nadd,2,2,b\nadd,2,9,b\nadd,3,10,a\nadd,1,1,b\nsome,1,b\n",
    answers: "7,some,4\n1,a\n1,b\n1,b\n3,a\n",
};

/// A join whose condition pins its last table alone, and one that pins the middle of three.
const PINNED: Played = Played {
    name: "a join pinned at a later table",
    job: "old
table A { id: int, x: int }
table B { id: int, y: int }
table C { y: int, z: text }
new
program
update addA(i: int, x: int) { insert into A { A.id = i, A.x = x }; }
update addB(i: int, y: int) { insert into B { B.id = i, B.y = y }; }
update addC(y: int, z: text) { insert into C { C.y = y, C.z = z }; }
query last(z: text) { select A.x from A join B on A.id = B.id join C on B.y = C.y where C.z = z; }
query middle(y: int) { select A.x, C.z from A join B on A.id = B.id join C on B.y = C.y where B.y = y; }
",
    calls: "addA,1,10\naddA,2,20\naddA,1,11\naddB,1,5\naddB,2,6\naddB,2,5\naddC,5,p\naddC,6,q\naddC,5,q\nlast,q\nmiddle,6\nlast,r\n",
    answers: "9,last,4\n10\n11\n20\n20\n10,middle,1\n20,q\n11,last,0\n",
};

/// Rows that are asked for by a text before and after it is set, deleted and added again.
const ASKED: Played = Played {
    name: "a set of a column that is asked for",
    job: "old
table A { id: int, t: text }
new
program
update add(i: int, t: text) { insert into A { A.id = i, A.t = t }; }
update move(t: text, u: text) { set A.t = u in A where A.t = t; }
update cut(t: text) { delete A from A where A.t = t; }
query ids(t: text) { select A.id from A where A.t = t; }
",
    calls: "add,1,a\nadd,2,b\nids,a\nmove,a,b\nids,a\nids,b\ncut,b\nids,b\nadd,3,b\nids,b\n",
    answers: "2,ids,1\n1\n4,ids,0\n5,ids,2\n1\n2\n7,ids,0\n9,ids,1\n3\n",
};

/// A function of four statements; each reads the state that the one before it left.
pub(crate) const FOUR: Played = Played {
    name: "four statements",
    job: "old
table A { id: int, x: int }
table B { id: int, y: int }
new
program
update four(i: int, j: int) {
  insert into A join B on A.id = B.id { A.id = i, A.x = 1, B.y = 2 };
  set B.y = j in A join B on A.id = B.id where A.x = 1;
  delete A from A join B on A.id = B.id where B.y = 4;
  insert into A { A.id = j, A.x = i };
}
query getA() { select A.id, A.x from A; }
query getB() { select B.id, B.y from B; }
",
    calls: "four,7,3\ngetA\ngetB\nfour,8,4\ngetA\ngetB\n",
    answers: "1,getA,2\n3,7\n7,1\n2,getB,1\n7,3\n4,getA,2\n3,7\n4,8\n5,getB,2\n7,4\n8,4\n",
};

/// All of them.
pub(crate) const PLAYED: [Played; 9] = [ADDS, CUT, PAIRS, KEYED, MOVE, CASES, PINNED, ASKED, FOUR];
