use lang_base::{Constraint, Elem, Elems, Head, Index, NoMemory, Rpl};
use region_paths::{disjoint, includes};
use std::alloc::Global;
use std::test::Fail;

/// Pairs of paths, made by `tests/oracle/algebra.py` at the top of the repository: two paths, the number of the constraints in
/// force, and the answers. R is `Root`, p and q are parameters, A to C names, 0 and 1 literals, u and v index variables,
/// w the renamed copy of v, l and m local regions. I and D say what the paths mean (the first lies in the second, they
/// have no region in common), i and d what the rules say of it.
const TABLE: &str = "\
    RA* RAB 0 -; RAu RAv 0 -; RAv RAw 0 Dd; p RA 0 -; p R* 0 Ii; pA R*A 0 Ii; RA? RA0 0 -; RA*B RA*C 0 Dd; \
    R*AB R*CB 0 Dd; pAB RA 0 Dd; RA pAB 0 Dd; Rl R* 0 D; Rl0 Rm* 0 Dd; Rl* R* 0 D; RlA Rl* 0 Ii; p*A q*B 0 Dd; \
    R*A* RBA*C 0 -; RAAB R*AB 0 Ii; RABAB R*AB 0 Ii; Rll R*l 0 D; RlAl R*l 0 D; RAl R*l* 0 Ii; R11* R11* 0 Ii; qu qvu 1 Dd; \
    R*AlA R*lAl 0 Dd; R*A? R1A? 0 -; q* R** 2 Ii; R*wm* R*Am* 0 D; pmC? p*? 1 D; pA10 p0B* 3 Dd; R? Rv 0 -; q? q* 2 Ii; \
    pmm?* R**m? 0 D; RBBBA RB** 0 Ii; Rml Rml 0 Ii; pB R*B 4 Ii; qA qu 1 Dd; R? R* 0 Ii; R***A R**** 0 Ii; pw*?w pw** 4 Ii; \
    Rv?v R??v 0 Ii; Rv Rv 0 Ii; R0*? R*0*? 0 Ii; puvuv puv*v 3 Ii; Ru R? 0 Ii; qA* qA* 1 Ii; qv pu 0 -; RmwCw p?A0 2 Dd; \
    pB** pB* 1 Ii; RA0*0 RA0*0 0 Ii; RAB* RA** 0 Ii; pwA pA 3 Dd; R*v? q*l 0 Dd; q*0 qu0 0 -; Rv?w R??w 0 Ii; ql qC 1 Dd; \
    p*m* q00 1 D; R RA 0 Dd; qv R*v 2 Ii; R*A?B RA?BB 0 Dd; R*** p*A* 3 -; R***A qw? 1 Dd; qB** qB*** 1 Ii; Ru Ru 0 Ii; \
    p11* p11* 1 Ii; pBm R?m 1 Dd; Rww?u Rwvw? 0 Dd; R0?C? R0??? 0 Dd; qmm RA*AA 3 Dd; pA R* 4 Ii; R?A0* R?** 0 Ii; R**C R**C 0 Ii; \
    RC Ru 0 Dd; R*??* q?0*0 3 -; R**BA R**BB 0 Dd; R** qC 4 -; R* R1 0 -; p? p1 0 -; qu qB 3 Dd; p1? p?? 1 Ii; \
    R*AB* R*AvB 0 -; Ruw R?? 0 Ii; p***B p**?B 1 -; RA*A RAv*A 0 -; q0* qB* 0 Dd; R*A** R*Al* 0 D; qu0 q**0 4 Ii; qu qA 4 Dd; \
    qu?u q??u 0 Ii; R00 Ruu 0 -; R**C R*** 0 Ii; qm qu 2 Dd; qBA* RA1 1 D; p0A? p0A1? 4 Dd; R0 Rl 0 Dd; R R 0 Ii; \
    qAA00 qAA0w 4 -; q0 q? 2 Ii; R0 Ru0 0 Dd; p1?* RB* 2 -; Rv?v Rvlv 0 Dd; R?* R1* 0 -; R?A0* R0?11 0 Dd; RAABB RAAB* 0 Ii; \
    qu?v RAm 2 Dd; q*Aml RB?A 1 Dd; p1vm p1m 3 Dd; R?u* pBA** 0 D; p*0? pvwuu 2 -; R?* R0B 0 -; Rvuv Rv?v 0 Ii; R?*0 R??*0 0 -; \
    quum q?um 2 Ii; RA1** RAA** 0 Dd; pA10 p**0 2 Ii; pAA q*AA 1 -; R**l pl 3 -; pml pm? 3 Dd; pA pm 0 Dd; RAAB* RAAB* 0 Ii; \
    plmmm plmm* 0 D; RAml RAm* 0 D; RA q 2 -; q1 ql 2 Dd; pw R* 4 Ii; R?ll RBl 0 Dd; RA*lA RABA 0 Dd; pwB* p0B* 0 -; \
    pm pvm 0 Dd; RBvm0 qABA 0 Dd; R?* R??1 0 -; RlA* RBA* 0 Dd; R0?AA pCwB 1 Dd; Rwv?v Rwv?0 0 -; R?A R?* 0 Ii; qvA qwvA 0 Dd; \
    R*Am* R*** 0 D; q?vww RC*m 2 Dd; q*Bll q*All 3 Dd; RAAB* Rwv 0 Dd; R**1? R?? 0 -; qvwvw qv?v? 1 Ii; pw pB 1 Dd; R0 R0 0 Ii; \
    p***w p***B 4 Dd; quum R0??? 2 Dd; RABAB RAB0B 0 Dd; pB puB 3 Dd; qu ql 0 Dd; p*0 RA0A0 0 -; Rv RB 0 Dd; qB qB 1 Ii; \
    R1A* R1* 0 Ii; Rvvw R?vw 0 Ii; R*Am* R*Aml 0 D; R* R* 0 Ii; qmAlA plA*l 3 Dd; q*l R***l 3 Ii; q* pm 3 D; R? RB? 0 Dd; \
    Rw pu 0 -; RC* RC* 0 Ii; pA p*A 4 Ii; p?A0 p*?A0 1 Ii; quu quB 4 Dd; qwww q??w 3 Ii; q1 qC 3 Dd; R**? p? 0 -; \
    qww*w qwww 0 -; qBA*B qA* 1 Dd; RB?BB RB?BB 0 Ii; quu quwu 2 Dd; R?u? R?u0 0 -; Rl Rl 0 Ii; pC Rv 0 Dd; p**w p*1mw 3 D; \
    RABA Ruu 0 Dd; RlA* RClA* 0 Dd; RAABB RAABB 0 Ii; pw* R*w** 4 Ii; RC R* 0 Ii; RBB0A RBB*A 0 Ii; p*B pB 3 -; RC q? 4 Dd; \
    puvuv p?A0 1 Dd; RB RB 0 Ii; p*** pv?* 3 -; pl qA 3 Dd; p*1mw p1*1m 0 Dd; qA*A RAB? 2 Dd; q?v* Rwvuu 4 -; qCBA* q*BA* 1 Ii; \
    R* Ru* 0 -; qA* q1**? 4 Dd; R***B qA0* 3 -; q* pu 3 -; qB* q* 4 Ii; R1* RC1* 0 Dd; R*B R*A*l 0 Dd; qw R0 3 -; \
    p p* 0 Ii; R?u* R?** 0 Ii; Rl* qvu 4 D; pw*?A pw*?w 4 Dd; p*ml* p*l*m 4 D; qA R*A 0 Ii; q1 R**1 3 Ii; qvA qv* 2 Ii; \
    qmAlA qm*Al 2 Dd; p?* p1* 4 -; q*l** q*ll* 4 D; qC R*C 1 Ii; RBB0A qu?v 4 Dd; R**B pB 2 -; R0*?0 R?*? 0 Ii; R101* R11* 0 Dd; \
    R1Am RAm 0 Dd; R*?AA R**A 0 Ii; puw?? puw* 4 Ii; Rw? Rw*? 0 Ii; Rvwv? Rwv?v 0 Dd; qABA qAwA 0 Dd; p?*A0 p?A0 3 -; q** q* 3 Ii; \
    R?v* R?vB 0 -; RAm RAm 0 Ii; R**10 q*010 3 -; R*A*A RA*AA 0 -; R?A R?A 0 Ii; Rvw?v p*l 4 Dd; R??0* R??u0 0 -; p**v p*v 2 Ii; \
    R1 q* 1 -; q*All q0*Al 2 Dd; R? ql 1 Dd; R?u? R1A 0 Dd; qm q**m 4 Ii; q?*B q***B 3 Ii; p*l R1*Cv 1 Dd; puwm pumm 2 Dd; \
    Rwu0v Rw* 0 Ii; p* pl 0 D; quu qulu 2 Dd; RmwCw Rm?Cw 0 Ii; R*AA R*vA 0 Dd; Rlmm* p1? 3 D; R?A RC*m 0 Dd; R*v?* R*v?* 0 Ii; \
    q?*uv q*?*u 3 -; Ru Rl 0 Dd; p* R 1 -; qAA1 RAB* 1 -; R*0 R* 0 Ii; q R* 3 Ii; R1B0 p*u* 4 D; p*llA R?w1* 0 D; \
    Rv RC 0 Dd; p*lA1 plA1 1 -; p1 q? 3 -; R*AA RA*AA 0 -; qBA* qB*A* 2 Ii; q*B*B qB*BB 2 -; q q* 0 Ii; qA?A q*A 2 Ii; \
    pl p* 0 D; Rw*?u Rw?u 0 -; RAm R101* 0 Dd; q?uu qw? 2 Dd; p00 pBB 1 Dd; RA0AB R*0* 0 Ii; R* pl 4 D; Rl* Rl* 0 Ii; \
    Rum11 R?m11 0 Ii; p?A0 p0A0 4 -; q*?ww qwww 1 -; R*v0 R*vu 0 -; qm pm 0 -; RA0AC RA0AB 0 Dd; RA1 R11 0 Dd; R*1B0 R*1BA 0 Dd; \
    Rm R* 0 D; R0?*A R0?AA 0 -; p*l R**A 1 Dd; R0 pA 2 Dd; Ru qB 3 Dd; p*1mw R*m 2 Dd; R*0* R0?0 0 -; R10A R?0A 0 Ii; \
    RuBw RlBw 0 Dd; R? R? 0 Ii; Rm pC 3 Dd; R** pB 1 -; qB q*B 4 Ii; Rwvu R*A* 0 D; R?10* R0Cm1 0 Dd; Rm Rm 0 Ii; \
    qAm Rvv 4 Dd; RB*A q*BA 3 -; qv00 qv0 4 Dd; R*?BB R?*1 0 Dd; p? qv 4 -; RAAA qAl 2 Dd; qu0 plm 2 Dd; p0B* R*0B* 0 Ii; \
    qll ql?l 3 Dd; Rl Rw 0 Dd; pm R*m 4 Ii; R?*? R**C 0 Dd; p*?* pu* 2 -; Rl* Rvu?v 0 Dd; q?A1A R101* 1 D; q*AA* q**AA 3 -; \
    R*w0 R*0 0 Ii; RB p0 4 Dd; R*?BB R?*?B 0 Dd; R*1 p1 4 -; RABAB RAB*A 0 Dd; Rmvv Rvv 0 Dd; p*?*A p*?A 4 -; pBA p*BA 1 Ii; \
    Ruwu R**wu 0 Ii; p1 RC 1 Dd; Rm* R*** 0 D; R** qll 0 D; quumm quum 3 Dd; q R* 4 Ii; p*1mw p*?m* 2 Ii; p0u p0? 1 Ii; \
    plmAA plmuA 2 Dd; R**?1 R**?1 0 Ii; p?? p?? 3 Ii; R*A* R*A* 0 Ii; q q* 3 Ii; pml p*ml 2 Ii; pm pu 4 Dd; q*AA* q*AA* 3 Ii; \
    pmA plA 0 Dd; qAA1 R*AA* 1 Ii; plA*l RABA* 4 D; R** q* 4 -; Rw RA 0 Dd; p0 Ru 4 D; qB qvB 3 Dd; RAABB p0B* 0 D; \
    q?0 q*? 1 Ii; p? pv 0 -; RlBw RlB* 0 Ii; R??1 Rv??1 0 Dd; pw pBw 2 Dd; q? q*? 2 Ii; Ruu q*AA 1 Dd; p11* p1l1* 2 Dd; \
    pml R*m* 0 D; qw p0 3 -; plA*l R*lA* 1 D; q? R0 4 -; R0 RC 0 Dd; p*Al p**Al 0 Ii; q?vww RmA 0 Dd; p*AA RAAB 3 Dd; \
    R**ww R*ww 0 Ii; pm p**m 0 Ii; q*B? q*B* 4 Ii; q*?*B q?*B 0 -; plv? pv? 0 Dd; p**? p? 2 -; Rww?u R?w?? 0 Ii; q1 qC1 1 Dd; \
    RC RC 0 Ii; Rw Rw 0 Ii; p***A R0BA 2 -; R? R*? 0 Ii; qC qm 3 Dd; p1 R*1 2 Ii; pu qB 1 Dd; plA1 plAB1 0 Dd; \
    R*v0 qmm 4 Dd; p**0? p0? 4 -; R*A1 qA1 0 -; p1 pB 4 Dd; p? p? 2 Ii; q* Ru 3 -; q1 q* 0 Ii; R??1 RA*A 0 Dd; \
    pl1m p1m 4 Dd; R*Am* R*mAm 0 D; pABA Rwu?u 1 Dd; R*u pw?w 0 -; pv?* pv?v 3 -; pu R*u 3 Ii; ql q** 3 D; q*lmm q*lmm 1 Ii; \
    q* qw 1 -; p1? qAl 0 Dd; p?0 p*?? 0 Ii; R*AAl R*Al* 0 Ii; qvC qC 4 Dd; q* Rv 2 -; qv0 RllA* 0 D; pB p** 0 Ii; \
    puvuv pu1uv 1 -; qwl ql 0 Dd; q? R? 3 -; pAl RAAB* 2 D; RA pw 3 Dd; RB RwB 0 Dd; Rv?v RA0?1 0 Dd; R** p* 1 -; \
    p*l p**l 4 Ii; RA RA 0 Ii; pu0 p0 0 Dd; R* Rm 0 D; qA**A qAlA 1 D; Rw Rv 0 Dd; R?*w R?mw 0 D; pBAA q0A 2 Dd; \
    q* ql 3 D; pv q1 2 Dd; R*1 R*01 0 -; R?ll p*0 2 Dd; R*ww RC*ww 0 -; RllA* Rl1lA 0 Dd; p p* 4 Ii; R*Al* R?00A 0 D; \
    pw q1 3 -; R**A R*1? 0 Dd; R*Al R**Al 0 Ii; q*? qv 1 -; qABA p*u1 2 Dd; qAA* qA**A 4 -; qw* qvw* 0 Dd; Rv?*w RBv?* 0 Dd; \
    Rvu?v q?0 0 D; Rvvw Ruu 0 Dd; RA R0A 0 Dd; quu** quum 3 D; qu0 R0C 2 Dd; q01 q1 1 Dd; R*A*l Rmm*m 0 Dd; qA Rw 2 Dd; \
    R? RC 0 Dd; ql qC 2 Dd; ql qAl 4 Dd; Rwv RAv 0 Dd; Rv q1 4 -; p? pA 3 Dd; p p? 1 Dd; qA?A qAB?A 1 Dd; \
    pBB0A pBBm0 3 Dd; RlA* Rl* 0 Ii; pl pl 1 Ii; R**** R***A 0 -; R*v?* R0?0 0 -; R*** R*A? 0 -; q0 q* 0 Ii; RABA* RABA* 0 Ii; \
    qv?w? qv?wm 4 Dd; RA*lA RA*?l 0 Dd; RA1** RA1*C 0 -; Rw?*? Rwu?u 0 -; RBB0A RBB* 0 Ii; p*u1 qBA*B 4 Dd; R0B*v R0B*? 0 Ii; p1u pu 2 Dd; \
    qv q1 1 -; pw*?w pw**w 2 Ii; Rvv R?? 0 Ii; plumA plmAA 0 Dd; Rv?v Rv?v 0 Ii; qA1 p*AA 3 Dd; R?ll R?**l 0 D; pw q0 4 -; \
    R0w plmmm 0 Dd; pv pC 4 Dd; Ruwu Ruw* 0 Ii; pl qA 2 Dd; RllA* Rl*lA 0 -; pwA plA 1 Dd; pv?wv p*v?w 0 Dd; qwm qm 2 Dd; \
    R1000 R?** 0 Ii; R0*? RA*? 0 Dd; qAA* R*AA* 0 Ii; RBAAA RBAmA 0 Dd; pBA Rl*?u 1 Dd; RA0A0 Rv?? 0 Dd; p*1 p1 1 -; RlAlA Rl*Al 0 Dd; \
    quv qv 3 Dd; Rm R*m 0 Ii; RABB* qvu 1 D; R**?0 R*?0 0 Ii; RBB* RBw* 0 Dd; RmwB? RmwB? 0 Ii; R0100 R0100 0 Ii; R*wu R*w* 0 Ii; \
    q0A? ql0A? 2 Dd; p*v pB*v 0 -; pABA* pABA0 4 -; RAB RmwCw 0 Dd; R0B R?u* 0 Dd; p1* RA1** 0 -; qB1 q1 1 Dd; qA q* 0 Ii; \
    RA*mA RA*A 0 D; qm pw 0 Dd; R?00A R?00* 0 Ii; Rvv RCvv 0 Dd; qluu qvuu 0 Dd; R*A R** 0 Ii; R*A? RmwCw 0 Dd; Rm* Rml 0 D; \
    R*AB* RBB? 0 D; pmm pm* 0 D; qu0 qu?0 3 Dd; qAA1 qA**1 2 Ii; RBBA RBBA 0 Ii; Rw* R*w* 0 Ii; pw?w p1w?w 3 Dd; RA?BB RvA?B 0 Dd";

fn elem(letter: u8) -> Elem {
    match letter {
        b'A' => Elem::Name(0),
        b'B' => Elem::Name(1),
        b'C' => Elem::Name(2),
        b'0' => Elem::At(Index::Literal(0)),
        b'1' => Elem::At(Index::Literal(1)),
        b'u' => Elem::At(Index::Variable(3)),
        b'v' => Elem::At(Index::Variable(5)),
        b'w' => Elem::At(Index::Renamed(5)),
        b'l' => Elem::Local(0, 0),
        b'm' => Elem::Local(1, 0),
        b'?' => Elem::Any,
        _ => Elem::Star,
    }
}

fn path(alloc: Global, text: &str) -> Result<Rpl, NoMemory> {
    let mut rpl = Rpl {
        head: Head::Root,
        elems: Elems::new(alloc),
    };
    for (at, letter) in text.bytes().enumerate() {
        match (at, letter) {
            (0, b'p') => rpl.head = Head::Param(0),
            (0, b'q') => rpl.head = Head::Param(1),
            (0, _) => {}
            (_, letter) => rpl.elems.push(elem(letter))?,
        }
    }
    Ok(rpl)
}

fn constraint(alloc: Global, left: &str, right: &str) -> Result<Constraint, NoMemory> {
    Ok(Constraint {
        left: path(alloc, left)?,
        right: path(alloc, right)?,
    })
}

/// The pairs of the constraints in force that a row names by a number.
fn pairs(number: &str) -> &'static [(&'static str, &'static str)] {
    match number {
        "1" => &[("p", "q")],
        "2" => &[("p*", "q*")],
        "3" => &[("p*", "RA*")],
        "4" => &[("RA*", "p*"), ("q", "RB")],
        _ => &[],
    }
}

/// The constraints in force that a row names by a number.
fn given(alloc: Global, number: &str) -> Result<Vec<Constraint>, NoMemory> {
    let mut all = Vec::new(alloc);
    for (left, right) in pairs(number) {
        all.push(constraint(alloc, left, right)?)?;
    }
    Ok(all)
}

/// Whether the two answers are what the rules say, and never more than the paths mean.
fn is_so(inside: bool, apart: bool, answers: &str) -> bool {
    inside == answers.contains('i')
        && apart == answers.contains('d')
        && (!inside || answers.contains('I'))
        && (!apart || answers.contains('D'))
}

/// Whether what the two calls answer at the pair of a row is so.
fn is_answered(alloc: Global, row: &str) -> Result<bool, NoMemory> {
    let mut words = row.split(' ');
    let a = path(alloc, words.next().unwrap_or(""))?;
    let b = path(alloc, words.next().unwrap_or(""))?;
    let constraints = given(alloc, words.next().unwrap_or(""))?;
    let apart = disjoint(&a, &b, constraints.as_slice());
    Ok(is_so(includes(&b, &a), apart, words.next().unwrap_or("")))
}

#[test]
fn pairs_of_paths(rt: HostRuntime) -> Result<(), Fail> {
    let mut rows = 0u32;
    for row in TABLE.split("; ") {
        assert!(rt; is_answered(rt.alloc(), row)?, "{row}");
        rows = rows.wrapping_add(1);
    }
    assert_eq!(rt; rows, 520);
    Ok(())
}

#[test]
fn paths_of_a_run(rt: HostRuntime) -> Result<(), Fail> {
    let alloc = rt.alloc();
    let made = Rpl {
        head: Head::Root,
        elems: Elems::from_slice(alloc, &[Elem::Local(3, 1), Elem::At(Index::Literal(-2))])?,
    };
    let any = Rpl {
        head: Head::Root,
        elems: Elems::from_slice(alloc, &[Elem::Local(3, 1), Elem::Any])?,
    };
    let other = Rpl {
        head: Head::Root,
        elems: Elems::from_slice(alloc, &[Elem::Local(3, 2), Elem::Star])?,
    };
    assert!(rt; !disjoint(&made, &any, &[]));
    assert!(rt; disjoint(&made, &other, &[]));
    Ok(())
}
