//! Worked runs as constants for tests: the text of a file, and what `transform`, `derive` or `expand` makes of it, worked
//! out by hand from the formats.
#![tactic(auto)]

/// A text, and the status, the output and the fault line that a job gives where the file `m` holds it.
#[derive(Clone, Copy, Debug)]
pub struct Row {
    pub text: &'static str,
    pub status: u8,
    pub out: &'static str,
    pub err: &'static str,
}

/// What `transform m` gives.
pub const TRANSFORMED: &[Row] = &[
    Row {
        text: "var x; model; x = 2*x(-1); end;",
        status: 0,
        out: "var x;\nmodel;\nx = 2*x(-1);\nend;\n",
        err: "",
    },
    Row {
        text: "var x, y z;\nvar w;model; x(0)-007*y(+01) ; y=z ;z=00;w=x;end ;",
        status: 0,
        out: "var x y z w;\nmodel;\nx-7*y(+1) = 0;\ny = z;\nz = 0;\nw = x;\nend;\n",
        err: "",
    },
    Row {
        text: "var c; parameters gamma; gamma = 2; model; c^(-gamma) = 1; end;",
        status: 0,
        out: "var c;\nparameters gamma;\ngamma = 2;\nmodel;\nc^(-2) = 1;\nend;\n",
        err: "",
    },
    Row {
        text: "var x y; varexo e; parameters a b; a = 1/2; b = a + .5; model; x = -(a-(b-e)) + ((y*x))/(2*y); y = min(x(+1), max(a, 1.50e-1))^(-b*2); end; // end",
        status: 0,
        out: "var x y;\nvarexo e;\nparameters a b;\na = 1/2;\nb = 1;\nmodel;\nx = -(a-(b-e))+y*x/(2*y);\ny = min(x(+1),max(a,0.15))^(-2);\nend;\n",
        err: "",
    },
    Row {
        text: "var x; /* a = 1; */ parameters p; p = 2; p = p^2 - 1e1/4; model; x = p*x(-1)^2 - -x^+2; end;",
        status: 0,
        out: "var x;\nparameters p;\np = 3/2;\nmodel;\nx = p*x(-1)^2-(-x^2);\nend;\n",
        err: "",
    },
    Row {
        text: "varexo e; var x; model; x = e(-24)+e(24)-(x-1.)*(-x); end; % done",
        status: 0,
        out: "var x;\nvarexo e;\nmodel;\nx = e(-24)+e(+24)-(x-1)*(-x);\nend;\n",
        err: "",
    },
    Row {
        text: "var x; parameters a; a = 2; model; x^a = +x^-a; end; a = 3;",
        status: 0,
        out: "var x;\nparameters a;\na = 3;\nmodel;\nx^3 = x^(-3);\nend;\n",
        err: "",
    },
    Row {
        text: "var x; parameters a b c d e f g h; a = 0.5+.25; b = 0.5-2; c = 1.5*4; d = 1/3; e = 2^-3; f = 2^16; g = 0^0; h = min(2,1); model; x = 1; end;",
        status: 0,
        out: "var x;\nparameters a b c d e f g h;\na = 3/4;\nb = -3/2;\nc = 6;\nd = 1/3;\ne = 1/8;\nf = 65536;\ng = 1;\nh = 1;\nmodel;\nx = 1;\nend;\n",
        err: "",
    },
    Row {
        text: "var a b d e f g h i k; parameters c; c = -1/20; model; (a)-(b-c) = (a-b)-c; (a+b)*c = -(-a); a*(-b) = a+((-b)*c); a/(b*c) = (a/b)/c; (-a)^2 = -(a^2); a^-2 = min((a),(b+c)); max(.050,1.50) = 1.2e3; .7 = 0.70; a(-1) = b(+1); end;",
        status: 0,
        out: "var a b d e f g h i k;\nparameters c;\nc = -1/20;\nmodel;\na-(b-c) = a-b-c;\n(a+b)*c = -(-a);\na*(-b) = a+(-b*c);\na/(b*c) = a/b/c;\n(-a)^2 = -a^2;\na^(-2) = min(a,b+c);\nmax(0.05,1.5) = 1200;\n0.7 = 0.7;\na(-1) = b(+1);\nend;\n",
        err: "",
    },
    Row {
        text: "var x $X$ (long_name='level'); model(linear); # g = x - 1; [name='eq', note='n'] diff(g) = 0; end; check;",
        status: 0,
        out: "var x;\nmodel;\n[name='eq'] x-1-(x(-1)-1) = 0;\nend;\n",
        err: "",
    },
    Row {
        text: "var x; varexo e; parameters p; p = 2; model(block, use_dll); # a = x^p-e(+1); # b = diff(a); [name=\"it's\"] x = b*p; end; rplot x a; resid(non_zero) ; check x, e;",
        status: 0,
        out: "var x;\nvarexo e;\nparameters p;\np = 2;\nmodel;\n[name=\"it's\"] x = (x^2-e(+1)-(x(-1)^2-e))*p;\nend;\n",
        err: "",
    },
    Row {
        text: "var x; varexo e; model; x = diff(diff(e))^2; end;",
        status: 0,
        out: "var x;\nvarexo e;\nmodel;\nx = (e-e(-1)-(e(-1)-e(-2)))^2;\nend;\n",
        err: "",
    },
    Row {
        text: "var x $x_t$ (long_name='a', other=\"b\"), y $y$; parameters p (a='b') q; p = 1; q = 2; model; # l = p; # k = l*l; x = y; y = k-diff(p); # l2 = 1e3; end; occbin_setup; occbin_solver(simul_periods=20, other=\"no\"); model_diagnostics;",
        status: 0,
        out: "var x y;\nparameters p q;\np = 1;\nq = 2;\nmodel;\nx = y;\ny = p*p-(p-p);\nend;\n",
        err: "",
    },
    Row {
        text: "var x; model; [name=''] x = 1; end;",
        status: 0,
        out: "var x;\nmodel;\n[name=''] x = 1;\nend;\n",
        err: "",
    },
    Row {
        text: "var x; model; x = x(-2); end;",
        status: 0,
        out: "var x AUX_LAG_x_1;\nmodel;\nx = AUX_LAG_x_1(-1);\nAUX_LAG_x_1 = x(-1);\nend;\n",
        err: "",
    },
    Row {
        text: "var x; model; x(+2) = x; end;",
        status: 0,
        out: "var x AUX_LEAD_x_1;\nmodel;\nAUX_LEAD_x_1(+1) = x;\nAUX_LEAD_x_1 = x(+1);\nend;\n",
        err: "",
    },
    Row {
        text: "var x; model; # g = diff(x(-1)); g = 0; end;",
        status: 0,
        out: "var x AUX_LAG_x_1;\nmodel;\nx(-1)-AUX_LAG_x_1(-1) = 0;\nAUX_LAG_x_1 = x(-1);\nend;\n",
        err: "",
    },
    Row {
        text: "var x y; varexo e; model; x = x(-3) + y(+3)*e(-7); [name='b'] y = x(+2); end;",
        status: 0,
        out: "var x y AUX_LEAD_x_1 AUX_LAG_x_1 AUX_LAG_x_2 AUX_LEAD_y_1 AUX_LEAD_y_2;\nvarexo e;\nmodel;\nx = AUX_LAG_x_2(-1)+AUX_LEAD_y_2(+1)*e(-7);\n[name='b'] y = AUX_LEAD_x_1(+1);\nAUX_LEAD_x_1 = x(+1);\nAUX_LAG_x_1 = x(-1);\nAUX_LAG_x_2 = AUX_LAG_x_1(-1);\nAUX_LEAD_y_1 = y(+1);\nAUX_LEAD_y_2 = AUX_LEAD_y_1(+1);\nend;\n",
        err: "",
    },
    Row {
        text: "var x; model; x = 1+diff(diff(x)); end;",
        status: 0,
        out: "var x AUX_LAG_x_1;\nmodel;\nx = 1+(x-x(-1)-(x(-1)-AUX_LAG_x_1(-1)));\nAUX_LAG_x_1 = x(-1);\nend;\n",
        err: "",
    },
    Row {
        text: "var x; model; # AUX_LEAD_x_1 = x(+9); x = x(+2); end;",
        status: 0,
        out: "var x AUX_LEAD_x_1;\nmodel;\nx = AUX_LEAD_x_1(+1);\nAUX_LEAD_x_1 = x(+1);\nend;\n",
        err: "",
    },
    Row {
        text: "var x; model; x = x(+24); end;",
        status: 0,
        out: "var x AUX_LEAD_x_1 AUX_LEAD_x_2 AUX_LEAD_x_3 AUX_LEAD_x_4 AUX_LEAD_x_5 AUX_LEAD_x_6 AUX_LEAD_x_7 AUX_LEAD_x_8 AUX_LEAD_x_9 AUX_LEAD_x_10 AUX_LEAD_x_11 AUX_LEAD_x_12 AUX_LEAD_x_13 AUX_LEAD_x_14 AUX_LEAD_x_15 AUX_LEAD_x_16 AUX_LEAD_x_17 AUX_LEAD_x_18 AUX_LEAD_x_19 AUX_LEAD_x_20 AUX_LEAD_x_21 AUX_LEAD_x_22 AUX_LEAD_x_23;\nmodel;\nx = AUX_LEAD_x_23(+1);\nAUX_LEAD_x_1 = x(+1);\nAUX_LEAD_x_2 = AUX_LEAD_x_1(+1);\nAUX_LEAD_x_3 = AUX_LEAD_x_2(+1);\nAUX_LEAD_x_4 = AUX_LEAD_x_3(+1);\nAUX_LEAD_x_5 = AUX_LEAD_x_4(+1);\nAUX_LEAD_x_6 = AUX_LEAD_x_5(+1);\nAUX_LEAD_x_7 = AUX_LEAD_x_6(+1);\nAUX_LEAD_x_8 = AUX_LEAD_x_7(+1);\nAUX_LEAD_x_9 = AUX_LEAD_x_8(+1);\nAUX_LEAD_x_10 = AUX_LEAD_x_9(+1);\nAUX_LEAD_x_11 = AUX_LEAD_x_10(+1);\nAUX_LEAD_x_12 = AUX_LEAD_x_11(+1);\nAUX_LEAD_x_13 = AUX_LEAD_x_12(+1);\nAUX_LEAD_x_14 = AUX_LEAD_x_13(+1);\nAUX_LEAD_x_15 = AUX_LEAD_x_14(+1);\nAUX_LEAD_x_16 = AUX_LEAD_x_15(+1);\nAUX_LEAD_x_17 = AUX_LEAD_x_16(+1);\nAUX_LEAD_x_18 = AUX_LEAD_x_17(+1);\nAUX_LEAD_x_19 = AUX_LEAD_x_18(+1);\nAUX_LEAD_x_20 = AUX_LEAD_x_19(+1);\nAUX_LEAD_x_21 = AUX_LEAD_x_20(+1);\nAUX_LEAD_x_22 = AUX_LEAD_x_21(+1);\nAUX_LEAD_x_23 = AUX_LEAD_x_22(+1);\nend;\n",
        err: "",
    },
];

/// What `transform m` refuses.
pub const REFUSED: &[Row] = &[
    Row {
        text: "var @",
        status: 5,
        out: "",
        err: "modpath: 5 Text kind=BadByte at=4 token=\n",
    },
    Row {
        text: "var x; /* open",
        status: 5,
        out: "",
        err: "modpath: 5 Text kind=OpenComment at=7 token=\n",
    },
    Row {
        text: "var x; x = 'a",
        status: 5,
        out: "",
        err: "modpath: 5 Text kind=OpenText at=11 token=\n",
    },
    Row {
        text: "var x; model; x = exp(x); end;",
        status: 5,
        out: "",
        err: "modpath: 5 Text kind=Token at=18 token=exp\n",
    },
    Row {
        text: "var x; model; x = 2^3^4; end;",
        status: 5,
        out: "",
        err: "modpath: 5 Text kind=Token at=21 token=^\n",
    },
    Row {
        text: "var x; model; x = 1;",
        status: 5,
        out: "",
        err: "modpath: 5 Text kind=Token at=21 token=\n",
    },
    Row {
        text: "var x; end;",
        status: 5,
        out: "",
        err: "modpath: 5 Text kind=Token at=7 token=end\n",
    },
    Row {
        text: "var x; model x = 1; end;",
        status: 5,
        out: "",
        err: "modpath: 5 Text kind=Token at=13 token=x\n",
    },
    Row {
        text: "var x; model; x = 1; ) end;",
        status: 5,
        out: "",
        err: "modpath: 5 Text kind=Token at=21 token=)\n",
    },
    Row {
        text: "var x; model; x = x^x; end;",
        status: 6,
        out: "",
        err: "modpath: 6 Declared kind=WrongKind name=x at=20\n",
    },
    Row {
        text: "var x; parameters p; model; x = p(+1); end; p = 1;",
        status: 6,
        out: "",
        err: "modpath: 6 Declared kind=Shift name=p at=32\n",
    },
    Row {
        text: "var x; varexo x;",
        status: 6,
        out: "",
        err: "modpath: 6 Declared kind=Twice name=x at=14\n",
    },
    Row {
        text: "var x; x = 1;",
        status: 6,
        out: "",
        err: "modpath: 6 Declared kind=WrongKind name=x at=7\n",
    },
    Row {
        text: "var x; parameters a b; a = b; b = 1; model; x = 1; end;",
        status: 6,
        out: "",
        err: "modpath: 6 Declared kind=NoValue name=b at=56\n",
    },
    Row {
        text: "var x; parameters a b; a = 1; model; x = 1; end;",
        status: 6,
        out: "",
        err: "modpath: 6 Declared kind=NoValue name=b at=49\n",
    },
    Row {
        text: "var x; model; x = 10000000000000000000000000000000000001; end;",
        status: 7,
        out: "",
        err: "modpath: 7 Data kind=Literal at=18 first=0 second=37\n",
    },
    Row {
        text: "var x; model; x = 1e-38; end;",
        status: 7,
        out: "",
        err: "modpath: 7 Data kind=Literal at=18 first=0 second=37\n",
    },
    Row {
        text: "var x; parameters a; a = 1; a = a/0; model; x = 2^(1/2); end;",
        status: 7,
        out: "",
        err: "modpath: 7 Data kind=ZeroDivisor at=33 first=1 second=0\n",
    },
    Row {
        text: "var x; parameters a; a = 1e37*10; model; x = a; end;",
        status: 7,
        out: "",
        err: "modpath: 7 Data kind=Overflow at=29 first=10000000000000000000000000000000000000 second=10\n",
    },
    Row {
        text: "var c; parameters gamma; gamma = 1/2; model; c^(-gamma) = 1; end;",
        status: 7,
        out: "",
        err: "modpath: 7 Data kind=Exponent at=46 first=-1/2 second=16\n",
    },
    Row {
        text: "var x; varexo e; model; x = e(+25); end;",
        status: 7,
        out: "",
        err: "modpath: 7 Data kind=ShiftFar at=28 first=25 second=24\n",
    },
    Row {
        text: "var x x; model; x = 1; end;",
        status: 6,
        out: "",
        err: "modpath: 6 Declared kind=Twice name=x at=6\n",
    },
    Row {
        text: "var x; model; x = 1; end; model; x = 2; end;",
        status: 6,
        out: "",
        err: "modpath: 6 Declared kind=BlockTwice name=model at=26\n",
    },
    Row {
        text: "var x; model; x = y; end;",
        status: 6,
        out: "",
        err: "modpath: 6 Declared kind=Undeclared name=y at=18\n",
    },
    Row {
        text: "var x;",
        status: 6,
        out: "",
        err: "modpath: 6 Declared kind=NoModel name= at=7\n",
    },
    Row {
        text: "model; end;",
        status: 6,
        out: "",
        err: "modpath: 6 Declared kind=Empty name= at=12\n",
    },
    Row {
        text: "varexo e; model; 1 = e; end;",
        status: 6,
        out: "",
        err: "modpath: 6 Declared kind=Empty name= at=29\n",
    },
    Row {
        text: "var x; model; end;",
        status: 6,
        out: "",
        err: "modpath: 6 Declared kind=EquationCount name= at=19\n",
    },
    Row {
        text: "var x y; model; x = 1; end;",
        status: 6,
        out: "",
        err: "modpath: 6 Declared kind=EquationCount name= at=28\n",
    },
    Row {
        text: "var x y; model; x = 1e38; end;",
        status: 6,
        out: "",
        err: "modpath: 6 Declared kind=EquationCount name= at=31\n",
    },
    Row {
        text: "var x; parameters a; a = 1e38+1; model; x = a; end;",
        status: 7,
        out: "",
        err: "modpath: 7 Data kind=Literal at=25 first=0 second=37\n",
    },
    Row {
        text: "var x; parameters a; a = 0^-1; model; x = 1; end;",
        status: 7,
        out: "",
        err: "modpath: 7 Data kind=ZeroDivisor at=26 first=0 second=-1\n",
    },
    Row {
        text: "var x; parameters a; a = 2^-17; model; x = 1; end;",
        status: 7,
        out: "",
        err: "modpath: 7 Data kind=Exponent at=26 first=-17 second=16\n",
    },
    Row {
        text: "var x; parameters a; a = 2^0.5; model; x = 1; end;",
        status: 7,
        out: "",
        err: "modpath: 7 Data kind=Exponent at=26 first=1/2 second=16\n",
    },
    Row {
        text: "var x; model; g = 0; # g = x; end;",
        status: 6,
        out: "",
        err: "modpath: 6 Declared kind=Undeclared name=g at=14\n",
    },
    Row {
        text: "var x y; model; [name='a'] x = 1; [name='a'] y = 1; end;",
        status: 6,
        out: "",
        err: "modpath: 6 Declared kind=RegimeGap name=a at=57\n",
    },
    Row {
        text: "var x; model; # g = x; x = g(1); end;",
        status: 6,
        out: "",
        err: "modpath: 6 Declared kind=Shift name=g at=27\n",
    },
    Row {
        text: "var x; model; # g = g; x = 1; end;",
        status: 6,
        out: "",
        err: "modpath: 6 Declared kind=Undeclared name=g at=20\n",
    },
    Row {
        text: "var x; model; # x = y; x = 1; end;",
        status: 6,
        out: "",
        err: "modpath: 6 Declared kind=Twice name=x at=16\n",
    },
    Row {
        text: "var x; model; # g = x; x = g; end; varexo g;",
        status: 6,
        out: "",
        err: "modpath: 6 Declared kind=Twice name=g at=42\n",
    },
    Row {
        text: "var x; model; # g = x; x = 2^g; end;",
        status: 6,
        out: "",
        err: "modpath: 6 Declared kind=WrongKind name=g at=29\n",
    },
    Row {
        text: "var x; parameters p; p = 1+diff(2); model; x = 1; end;",
        status: 6,
        out: "",
        err: "modpath: 6 Declared kind=Place name=diff at=27\n",
    },
    Row {
        text: "var x; model; x = x^(1-diff(2)); end;",
        status: 6,
        out: "",
        err: "modpath: 6 Declared kind=Place name=diff at=23\n",
    },
    Row {
        text: "var x; model; [mcp='x > 0'] x = 1; end;",
        status: 6,
        out: "",
        err: "modpath: 6 Declared kind=TagText name=mcp at=19\n",
    },
    Row {
        text: "var x; model; [name='a',note='b',note='c',name='d'] x = y; end;",
        status: 6,
        out: "",
        err: "modpath: 6 Declared kind=TagTwice name=name at=42\n",
    },
    Row {
        text: "var x; model(linear,foo); x = 1; end;",
        status: 6,
        out: "",
        err: "modpath: 6 Declared kind=Option name=foo at=20\n",
    },
    Row {
        text: "var x; model(linear,block,linear); x = 1; end;",
        status: 6,
        out: "",
        err: "modpath: 6 Declared kind=Option name=linear at=26\n",
    },
    Row {
        text: "var x; model(no_static=1); x = 1; end;",
        status: 6,
        out: "",
        err: "modpath: 6 Declared kind=Option name=no_static at=13\n",
    },
    Row {
        text: "var x; model; x = 1; end; rplot x y;",
        status: 6,
        out: "",
        err: "modpath: 6 Declared kind=Undeclared name=y at=34\n",
    },
    Row {
        text: "var x; model; # a = x(-24); # b = diff(a); x = b+x(30); end;",
        status: 7,
        out: "",
        err: "modpath: 7 Data kind=ShiftFar at=39 first=25 second=24\n",
    },
    Row {
        text: "var x; varexo e; model; # a = e(+1)+2*e(+26)-e(-30); x = 1; end;",
        status: 7,
        out: "",
        err: "modpath: 7 Data kind=ShiftFar at=38 first=26 second=24\n",
    },
    Row {
        text: "var x; varexo e; model; x = diff(diff(e(-23))); end;",
        status: 7,
        out: "",
        err: "modpath: 7 Data kind=ShiftFar at=38 first=25 second=24\n",
    },
    Row {
        text: "var x; model; x = 1; end; check(a=1e38);",
        status: 7,
        out: "",
        err: "modpath: 7 Data kind=Literal at=34 first=0 second=37\n",
    },
    Row {
        text: "var\n@#for i in 1:201\nx@{i}\n@#endfor\n;\nmodel;\n@#for i in 1:201\nx@{i};\n@#endfor\nend;\n",
        status: 7,
        out: "",
        err: "modpath: 7 Data kind=ManyNames at=896 first=201 second=200\n",
    },
    Row {
        text: "var x;\nmodel;\n# a1 = x*x;\n@#for i in 1:99\n# a@{i+1} = a@{i}*a@{i};\n@#endfor\na100 = 0;\nend;\n",
        status: 7,
        out: "",
        err: "modpath: 7 Data kind=TooLarge at=0 first=1267650600228229401496703205375 second=200000\n",
    },
    Row {
        text: "var x;\nmodel;\n# b1 = x;\n@#for i in 1:500\n# b@{i+1} = -b@{i};\n@#endfor\nb501 = 0;\nend;\n",
        status: 7,
        out: "",
        err: "modpath: 7 Data kind=TooDeep at=0 first=501 second=500\n",
    },
    Row {
        text: "var x; model; x = x(+25); end;",
        status: 7,
        out: "",
        err: "modpath: 7 Data kind=ShiftFar at=18 first=25 second=24\n",
    },
    Row {
        text: "var x AUX_LEAD_x_1; model; x(+2) = x; AUX_LEAD_x_1 = 0; end;",
        status: 6,
        out: "",
        err: "modpath: 6 Declared kind=NameTaken name=AUX_LEAD_x_1 at=6\n",
    },
    Row {
        text: "var x; parameters AUX_LAG_x_2; AUX_LAG_x_2 = 1; model; x(-3) = x(+2); end;",
        status: 6,
        out: "",
        err: "modpath: 6 Declared kind=NameTaken name=AUX_LAG_x_2 at=18\n",
    },
    Row {
        text: "var a xxxxxxxxxxxxxxxxxxxxxxxxxxxxxxxxxxxxxxxxxxxxxxxxxxxxxxxxxxxxxxxxxxxxxxxxxxxxxxxxxxxxxxxxxxxxxxxxxxxxxxxxxxxxxxxxxxxxxx; model; a = xxxxxxxxxxxxxxxxxxxxxxxxxxxxxxxxxxxxxxxxxxxxxxxxxxxxxxxxxxxxxxxxxxxxxxxxxxxxxxxxxxxxxxxxxxxxxxxxxxxxxxxxxxxxxxxxxxxxxx(+2); xxxxxxxxxxxxxxxxxxxxxxxxxxxxxxxxxxxxxxxxxxxxxxxxxxxxxxxxxxxxxxxxxxxxxxxxxxxxxxxxxxxxxxxxxxxxxxxxxxxxxxxxxxxxxxxxxxxxxx = 0; end;",
        status: 6,
        out: "",
        err: "modpath: 6 Declared kind=NameLong name=AUX_LEAD_xxxxxxxxxxxxxxxxxxxxxxxxxxxxxxxxxxxxxxxxxxxxxxxxxxxxxxxxxxxxxxxxxxxxxxxxxxxxxxxxxxxxxxxxxxxxxxxxxxxxxxxxxxxxxxxxxxxxxx_ at=6\n",
    },
    Row {
        text: "var x; model; x = pick(x,1,2,3); end;",
        status: 5,
        out: "",
        err: "modpath: 5 Text kind=Token at=18 token=pick\n",
    },
    Row {
        text: "var x; model; # b1 = x*x; # b2 = b1*b1; # b3 = b2*b2; # b4 = b3*b3; # b5 = b4*b4; # b6 = b5*b5; # b7 = b6*b6; # b8 = b7*b7; # b9 = b8*b8; # b10 = b9*b9; # b11 = b10*b10; # b12 = b11*b11; # b13 = b12*b12; # b14 = b13*b13; # b15 = b14*b14; # b16 = b15*b15; # b17 = b16*b16; b17 = 0; end;",
        status: 7,
        out: "",
        err: "modpath: 7 Data kind=DerivativesLarge at=0 first=2228223 second=2000000\n",
    },
];

/// Of open parentheses: at most 500 are open at once, and those of calls count.
pub const NESTED: &[Row] = &[
    Row {
        text: "var x; model; (((((((((((((((((((((((((((((((((((((((((((((((((((((((((((((((((((((((((((((((((((((((((((((((((((((((((((((((((((((((((((((((((((((((((((((((((((((((((((((((((((((((((((((((((((((((((((((((((((((((((((((((((((((((((((((((((((((((((((((((((((((((((((((((((((((((((((((((((((((((((((((((((((((((((((((((((((((((((((((((((((((((((((((((((((((((((((((((((((((((((((((((((((((((((((((((((((((((((((((((((((((((((((((((((((((((((((((((((((((((((((((((((((((((((((((((((((((((((((((((((((((((((((((((((((((",
        status: 5,
        out: "",
        err: "modpath: 5 Text kind=Token at=514 token=(\n",
    },
    Row {
        text: "var x; model; ((((((((((((((((((((((((((((((((((((((((((((((((((((((((((((((((((((((((((((((((((((((((((((((((((((((((((((((((((((((((((((((((((((((((((((((((((((((((((((((((((((((((((((((((((((((((((((((((((((((((((((((((((((((((((((((((((((((((((((((((((((((((((((((((((((((((((((((((((((((((((((((((((((((((((((((((((((((((((((((((((((((((((((((((((((((((((((((((((((((((((((((((((((((((((((((((((((((((((((((((((((((((((((((((((((((((((((((((((((((((((((((((((((((((((((((((((((((((((((((((((((((((((((((((((((min",
        status: 5,
        out: "",
        err: "modpath: 5 Text kind=Token at=514 token=min\n",
    },
];

/// What `derive m` gives.
pub const DERIVED: &[Row] = &[
    Row {
        text: "var x y z; model; y = x^3/(1+z); x = 1; z = 1; end;",
        status: 0,
        out: "equation,variable,shift,derivative\n1,x,0,-(3*x^2/(1+z))\n1,y,0,1\n1,z,0,x^3/(1+z)^2\n2,x,0,1\n3,z,0,1\n",
        err: "",
    },
    Row {
        text: "var y; varexo x; model; y = min(x, 2); end;",
        status: 0,
        out: "equation,variable,shift,derivative\n1,y,0,1\n1,x,0,\"-pick(x,2,1,0)\"\n",
        err: "",
    },
    Row {
        text: "var y; varexo x; model; y = max(x, 2); end;",
        status: 0,
        out: "equation,variable,shift,derivative\n1,y,0,1\n1,x,0,\"-pick(2,x,1,0)\"\n",
        err: "",
    },
    Row {
        text: "var x; model; x = 2*x(-1); end;",
        status: 0,
        out: "equation,variable,shift,derivative\n1,x,-1,-2\n1,x,0,1\n",
        err: "",
    },
    Row {
        text: "var x; model; x = x(+3); end;",
        status: 0,
        out: "equation,variable,shift,derivative\n1,x,0,1\n1,AUX_LEAD_x_2,1,-1\n2,x,1,-1\n2,AUX_LEAD_x_1,0,1\n3,AUX_LEAD_x_1,1,-1\n3,AUX_LEAD_x_2,0,1\n",
        err: "",
    },
    Row {
        text: "var x; model; x^0 + x^1 = x^(-1); end;",
        status: 0,
        out: "equation,variable,shift,derivative\n1,x,0,1-(-1*x^(-2))\n",
        err: "",
    },
    Row {
        text: "var x y; model; x*y = 1; y = 1; end;",
        status: 0,
        out: "equation,variable,shift,derivative\n1,x,0,y\n1,y,0,x\n2,y,0,1\n",
        err: "",
    },
    Row {
        text: "var x; parameters a; a = 2; model; # g = a*x; [name='n'] diff(g) = 0; end;",
        status: 0,
        out: "equation,variable,shift,derivative\n1,x,-1,-a\n1,x,0,a\n",
        err: "",
    },
    Row {
        text: "var x; model; 1 = 2; end;",
        status: 0,
        out: "equation,variable,shift,derivative\n",
        err: "",
    },
    Row {
        text: "var x; model; min(x, x) = 0; end;",
        status: 0,
        out: "equation,variable,shift,derivative\n1,x,0,\"pick(x,x,1,1)\"\n",
        err: "",
    },
    Row {
        text: "var x AUX_LAG_x_1; model; x = x(-2); AUX_LAG_x_1 = 1; end;",
        status: 6,
        out: "",
        err: "modpath: 6 Declared kind=NameTaken name=AUX_LAG_x_1 at=6\n",
    },
    Row {
        text: "var x; model; # b1 = x*x; # b2 = b1*b1; # b3 = b2*b2; # b4 = b3*b3; # b5 = b4*b4; # b6 = b5*b5; # b7 = b6*b6; # b8 = b7*b7; # b9 = b8*b8; # b10 = b9*b9; # b11 = b10*b10; # b12 = b11*b11; # b13 = b12*b12; # b14 = b13*b13; # b15 = b14*b14; # b16 = b15*b15; # b17 = b16*b16; b17 = 0; end;",
        status: 7,
        out: "",
        err: "modpath: 7 Data kind=DerivativesLarge at=0 first=2228223 second=2000000\n",
    },
    Row {
        text: "var x; model; x = @; end;",
        status: 5,
        out: "",
        err: "modpath: 5 Text kind=BadByte at=18 token=\n",
    },
];

/// What `expand m` gives or refuses.
pub const EXPANDED: &[Row] = &[
    Row {
        text: "@#define A = [\"x\", \"y\"]\n@#for i in A\n@#for j in []\nnever\n@#endfor\nvar @{i}@{1+1};\n@#endfor\n",
        status: 0,
        out: "var x2;\nvar y2;\n",
        err: "",
    },
    Row {
        text: "@#define i = 7\n@#for i in 1:2\nv@{i}\n@#endfor\nw@{i}",
        status: 0,
        out: "v1\nv2\nw7\n",
        err: "",
    },
    Row {
        text: "",
        status: 0,
        out: "",
        err: "",
    },
    Row {
        text: "a\n@#if 0\nb\n@#elseif \"x\" in [\"y\"]\nc\n@#else // d\ne@{\"}\"}\n@#endif\nf // @{g}",
        status: 0,
        out: "a\ne}\nf // @{g}\n",
        err: "",
    },
    Row {
        text: "@#ifndef N\n@#define N = [1:2, true, \"t\"]\n@#endif\n@{N} @{N[2]+3*N[1][2]}",
        status: 4,
        out: "",
        err: "modpath: 4 Macro kind=WrongKind file=m line=4\n",
    },
    Row {
        text: "@#include \"m\"\n",
        status: 4,
        out: "",
        err: "modpath: 4 Macro kind=IncludeDeep file=m line=1\n",
    },
    Row {
        text: "@#if 1\na\n",
        status: 4,
        out: "",
        err: "modpath: 4 Macro kind=Unbalanced file=m line=1\n",
    },
    Row {
        text: "@#foo\n",
        status: 4,
        out: "",
        err: "modpath: 4 Macro kind=BadDirective file=m line=1\n",
    },
    Row {
        text: "a\n@#for i in 3\n@#endfor\n",
        status: 4,
        out: "",
        err: "modpath: 4 Macro kind=WrongKind file=m line=2\n",
    },
    Row {
        text: "@#if 0\n@#else\n@#elseif 1\n@#endif\n",
        status: 4,
        out: "",
        err: "modpath: 4 Macro kind=Unbalanced file=m line=3\n",
    },
    Row {
        text: "@{x",
        status: 4,
        out: "",
        err: "modpath: 4 Macro kind=BadExpression file=m line=1\n",
    },
    Row {
        text: "@#include \"none\"\n",
        status: 3,
        out: "",
        err: "modpath: 3 Absent name=none\n",
    },
];
